// Tests of the reader on hotels made for them.
#![tactic(auto)]

#[cfg(test)]
mod hotel;
#[cfg(test)]
mod tests;
