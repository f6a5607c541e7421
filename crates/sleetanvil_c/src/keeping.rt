// The exports of `keeper_face`: each calls its function there, under the same clauses.
ghost use Rattle.std.specs.Prelude.{◌≡◌};
ghost use Rattle.keeper.specs.Keeper.{new_keeper, add_of, grant_of};
ghost use Rattle.keeper_face.specs.Face.{face_added, face_granted};

use keeper::Keeper;
use keeper_face::{CAdded, CGranted};

// A new keeper.
#[unsafe(no_mangle)]
pub extern "C" fn sleet_keeper_new() -> Keeper
    ensures { result ≡ new_keeper }
{
    keeper_face::sleet_keeper_new()
}

// A transfer to the back of a core's queue.
#[unsafe(no_mangle)]
pub extern "C" fn sleet_keeper_add(keeper: Keeper, core: u8, tag: u8) -> CAdded
    ensures { result ≡ face_added (add_of keeper core tag) }
{
    keeper_face::sleet_keeper_add(keeper, core, tag)
}

// The transfer that is next.
#[unsafe(no_mangle)]
pub extern "C" fn sleet_keeper_grant(keeper: Keeper) -> CGranted
    ensures { result ≡ face_granted (grant_of keeper) }
{
    keeper_face::sleet_keeper_grant(keeper)
}
