// A request whose ends are places, and which has as many forecasts of each cost as there are places. Not in the type: that the
// building is fair. It would need the two kinds there, of which there is no value, and two calls alone ask for it: no plainer.
ghost use Rattle.std.specs.Prelude.{◌<◌, length};
ghost use Rattle.plan.specs.Requests.{Listed};

use crate::request::Request;
use crate::table::Table;

#[derive(Clone, Copy)]
pub struct ListedRequest<'a, 'b, 'c> {
    pub(crate) table: &'a Table,
    pub(crate) request: Request<'b, 'c>,
    ghost listed: { Listed table.now request },
    ghost goal: { request.ends.goal < length table.now.places.items },
}
