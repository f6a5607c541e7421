// The keeper in C: the functions of include/sleetanvil.h, "four cores at one chip select". A keeper is the same struct outside and inside,
// and every content of it is answered; refusals are numbers outside.
#![tactic(auto)]

ghost use Rattle.std.specs.Prelude.{◌≡◌};
ghost use Rattle.keeper.specs.Keeper.{new_keeper, add_of, grant_of};
ghost use Rattle.keeper_face.specs.Face.{face_added, face_granted};

use keeper::{Added, Granted, Keeper};

// What comes of an adding; the refusal is 0 where there is none, for C has no Result.
#[repr(C)]
#[derive(Clone, Copy)]
pub struct CAdded {
    pub keeper: Keeper,
    pub refusal: u8,
}

// What comes of a grant; the refusal is 0 where there is none, else core and tag are 0.
#[repr(C)]
#[derive(Clone, Copy)]
pub struct CGranted {
    pub keeper: Keeper,
    pub refusal: u8,
    pub core: u8,
    pub tag: u8,
}

// A new keeper.
pub fn sleet_keeper_new() -> Keeper
    ensures { result ≡ new_keeper }
{
    Keeper::new()
}

// A transfer to the back of a core's queue.
pub fn sleet_keeper_add(keeper: Keeper, core: u8, tag: u8) -> CAdded
    ensures { result ≡ face_added (add_of keeper core tag) }
{
    let Added { keeper, answer } = keeper.add(core, tag);
    CAdded {
        keeper,
        refusal: keeper::number_in(answer),
    }
}

// The transfer that is next.
pub fn sleet_keeper_grant(keeper: Keeper) -> CGranted
    ensures { result ≡ face_granted (grant_of keeper) }
{
    let Granted { keeper, answer } = keeper.grant();
    match answer {
        Ok(grant) => CGranted {
            keeper,
            refusal: 0,
            core: grant.core,
            tag: grant.tag,
        },
        Err(why) => CGranted {
            keeper,
            refusal: keeper::number_of(why),
            core: 0,
            tag: 0,
        },
    }
}
