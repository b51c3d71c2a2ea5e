// Tests of the plan on the worked hotel.
#![tactic(auto)]

#[cfg(test)]
mod steps;
