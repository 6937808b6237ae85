ghost use Rattle.std.specs.Prelude.{◌≡◌, ℕ, ◌%◌, ◌<◌, Some, None, Decides, ◌==◌};
ghost use Rattle.std.proofs.Common.{rules};
ghost use Rattle.std.specs.Cmp.Rules.{comparing};
ghost use Rattle.std.specs.Ordering.{on};
ghost use Rattle.labels.specs.Routes.{lanes_of, lane_of, IsLane, FourLanes, rank as rank_of, through};
ghost use Rattle.labels.specs.RouteLaw.{through_assoc};

use crate::label::Label;

// A way from lanes 1 to 4 to four different lanes. The code means one of the 24 by its remainder.
#[derive(Clone, Copy, Debug)]
pub struct Route {
    pub code: u8,
}

// Where each route sends lanes 1, 2, 3 and 4, in the order of a dictionary.
const ROUTES: [[u8; 4]; 24] = [
    [1, 2, 3, 4],
    [1, 2, 4, 3],
    [1, 3, 2, 4],
    [1, 3, 4, 2],
    [1, 4, 2, 3],
    [1, 4, 3, 2],
    [2, 1, 3, 4],
    [2, 1, 4, 3],
    [2, 3, 1, 4],
    [2, 3, 4, 1],
    [2, 4, 1, 3],
    [2, 4, 3, 1],
    [3, 1, 2, 4],
    [3, 1, 4, 2],
    [3, 2, 1, 4],
    [3, 2, 4, 1],
    [3, 4, 1, 2],
    [3, 4, 2, 1],
    [4, 1, 2, 3],
    [4, 1, 3, 2],
    [4, 2, 1, 3],
    [4, 2, 3, 1],
    [4, 3, 1, 2],
    [4, 3, 2, 1],
];

// The place of four lanes among the 24: a smaller lane further on puts 6 rows before, or 2, or 1.
#[tactic(auto, unfolding(crate::specs::Routes::rank))]
fn rank(a: u8, b: u8, c: u8, d: u8) -> u8
    ensures { result ≡ rank_of a b c d }
{
    let first = (b < a) as u8 + (c < a) as u8 + (d < a) as u8;
    let second = (c < b) as u8 + (d < b) as u8;
    6 * first + 2 * second + (d < c) as u8
}

impl Route {
    // Where it sends lanes 1, 2, 3 and 4.
    pub fn lanes(self) -> [u8; 4]
        ensures value { result ≡ lanes_of self }
        ensures law { FourLanes result }
    {
        ROUTES[self.code as usize % 24]
    }

    // Where it sends one lane; none where there is no such lane.
    pub fn lane(self, i: u8) -> Option<u8>
        ensures answer { elim result [ Some lane ↦ IsLane i × (lane ≡ lane_of self i) | None ↦ (IsLane i → ⊥) ] }
    {
        if (1..=4).contains(&i) {
            Some(self.sends(i))
        } else {
            None
        }
    }

    // The route that sends lanes 1 to 4 to these; none where they are not four different lanes 1 to 4. An Option and no
    // TryFrom: of lanes that make no route there is nothing more to say.
    pub fn from_lanes(lanes: [u8; 4]) -> Option<Route>
        ensures answer { elim result [ Some route ↦ (lanes_of route ≡ lanes) × (route.code < 24) | None ↦ (FourLanes lanes → ⊥) ] }
        ensures same { (route : Route) → lanes_of route ≡ lanes → result ≡ Some (record { code = route.code % 24 }) }
    {
        let [a, b, c, d] = lanes;
        let route = Route {
            code: rank(a, b, c, d),
        };
        // Four different lanes have that code. Other numbers have it too, but they are no route's lanes.
        if route.lanes() == lanes {
            Some(route)
        } else {
            None
        }
    }

    // Where it sends one of the four lanes.
    fn sends(self, i: u8) -> u8
        requires { IsLane i }
        ensures value { result ≡ lane_of self i }
        ensures lane { IsLane result }
    {
        self.lanes()[i as usize - 1]
    }
}

impl Label for Route {
    ghost op = { through };

    ghost assoc = { λ x y z. through_assoc x y z };

    // Each lane goes through the first route and then through the second.
    fn compose(self, next: Route) -> Route
        ensures value { result ≡ through self next }
        ensures lanes { (i : ℕ) → IsLane i → lane_of result i ≡ lane_of next (lane_of self i) }
    {
        let a = next.sends(self.sends(1));
        let b = next.sends(self.sends(2));
        let c = next.sends(self.sends(3));
        let d = next.sends(self.sends(4));
        Route {
            code: rank(a, b, c, d),
        }
    }
}

// Two codes mean one route just where they have one remainder.
impl PartialEq for Route {
    ghost eq = { on (λ route. route.code % 24) ◌==◌ };

    ghost laws = { Prim.search (comparing, rules) };

    fn eq(&self, other: &Route) -> bool
        ensures answer { Decides result (lanes_of self.now ≡ lanes_of other.now) }
        ensures value { result ≡ (self.now.code % 24 == other.now.code % 24) }
    {
        self.code % 24 == other.code % 24
    }
}

impl Eq for Route {
    ghost laws = { Prim.search (comparing, rules) };
}
