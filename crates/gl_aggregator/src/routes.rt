//! Which targets of a map an operation visits, and which of its lines each of them has.
ghost use Rattle.std.specs.Prelude.{◌≡◌, ◌<◌, ◌≤◌, [], ◌∷◌, ◌++◌, length};
ghost use Rattle.gl_base.specs.Rows.{Each};
ghost use Rattle.gl_driver.specs.Calls.{FitsOp};
ghost use Rattle.gl_driver.specs.Maps.{FitsMap, targets_of};
ghost use Rattle.gl_aggregator.specs.Routes.{FitsRoute, IsRoute, is_visited, lines_on, route_if_any, routes};

use crate::words::{offsets_of, position_at};
use gl_base::{LINES_PER_REQUEST, Lines, Op};
use gl_driver::{Map, Target};
use std::marker::Model;

/// A target that an operation visits.
#[derive(Clone, Copy)]
pub(crate) struct Route {
    /// The target.
    pub(crate) target: Target,
    /// How many lines the targets before it have.
    pub(crate) base: u32,
}

/// What stands past the last route.
const NO_ROUTE: Route = Route {
    target: Target {
        place: 0,
        fd: 0,
        lines: Lines {
            count: 0,
            offsets: [0; LINES_PER_REQUEST as usize],
        },
    },
    base: 0,
};

/// Routes in order, at most four. Contracts see the list of them.
#[derive(Drop)]
pub(crate) struct Routes {
    count: u32,
    rows: [Route; 4],
}

impl Model for Routes {
    ghost use Rattle.std.specs.Prelude.{◌≤◌, List, take};
    ghost use Rattle.gl_aggregator.specs.declared.routes.Route.{Route};

    ghost Value = { List Route };

    ghost view = { λ r. take r.count r.rows };

    ghost invariant = { λ r. r.count ≤ 4 };
}

impl Routes {
    /// No route.
    fn new() -> Routes
        ensures { result ≡ [] }
    {
        Routes {
            count: 0,
            rows: no_routes(),
        }
    }

    /// One route more.
    fn put(&mut self, route: &Route)
        requires { length self.old < 4 }
        ensures { self.new ≡ self.old ++ route.now ∷ [] }
    {
        self.rows[self.count as usize] = *route;
        self.count += 1;
    }

    /// One route more, where the operation has a line that is its target's.
    fn put_visited(&mut self, op: &Op, route: &Route)
        requires room { length self.old < 4 }
        requires op { FitsOp op.now }
        requires route { IsRoute route.now }
        ensures { self.new ≡ self.old ++ route_if_any route.now (lines_on op.now route.now) }
    {
        if has_lines(op, route) {
            self.put(route);
        }
    }

    /// The routes.
    pub(crate) fn rows(&self) -> &[Route]
        ensures { result.now ≡ self.now }
    {
        &self.rows[..self.count as usize]
    }
}

/// Rows without a route.
fn no_routes() -> [Route; 4] {
    [NO_ROUTE; 4]
}

/// Whether an operation has a line that is the target's.
fn has_lines(op: &Op, route: &Route) -> bool
    requires op { FitsOp op.now }
    requires route { IsRoute route.now }
    ensures { result ≡ is_visited (lines_on op.now route.now) }
{
    let offsets = offsets_of(op);
    for (i, offset) in offsets.iter().enumerate() {
        if position_at(op, route, i as u32, *offset).is_some() {
            return true;
        }
    }
    false
}

/// The targets of a map.
fn targets_of(map: &Map) -> &[Target]
    requires { FitsMap map.now }
    ensures targets { result.now ≡ targets_of map.now }
    ensures few { length result.now ≤ 4 }
{
    &map.targets[..map.count as usize]
}

/// The targets of a map that an operation visits, in order.
pub(crate) fn routes_of(map: &Map, op: &Op) -> Routes
    requires map { FitsMap map.now }
    requires op { FitsOp op.now }
    ensures routes { result ≡ routes map.now op.now }
    ensures fit { Each (FitsRoute map.now.place) result }
{
    let targets = targets_of(map);
    let mut found = Routes::new();
    let mut base = 0;
    for target in targets {
        let route = Route {
            target: *target,
            base,
        };
        found.put_visited(op, &route);
        base += target.lines.count;
    }
    found
}
