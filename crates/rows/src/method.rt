// The two published tests.
ghost use Rattle.rows.specs.Methods.{Named};

use refusals::Refusal;

// A method: BCL by its formula, or RTA by the least response time that solves its equation.
#[derive(Clone, Copy, PartialEq, Eq, Debug)]
pub enum Method {
    Bcl,
    Rta,
}

impl TryFrom<u32> for Method {
    type Error = Refusal;

    ghost try_from_gives = { Named };

    // The method of a number: 0 is BCL, 1 is RTA, and 5 where it is above 1.
    #[tactic(auto, unfolding(crate::specs::Checks::method_refusal))]
    fn try_from(number: u32) -> Result<Self, Refusal> {
        match number {
            0 => Ok(Method::Bcl),
            1 => Ok(Method::Rta),
            _ => Err(Refusal::Method),
        }
    }
}
