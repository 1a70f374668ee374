ghost use Rattle.std.specs.Prelude.{List};
ghost use mathlib.Core.List.{IsPrefix};
ghost use Rattle.lk_front.specs.Chains.{IsChain};
ghost use Rattle.lk_edition.specs.Standings.{Standing};
ghost use Rattle.lk_edition.specs.Versions.{Follows, Opens};

use lk_edition::Edition;
use lk_front::Shelves;
use lk_shelf::Desk;

/// What two desks have seen begins one list of editions, of which the first opened the server and each other one is the one before it
/// once more or that of a load or a check on it. So the sessions of their connections are sessions along that list, also where they
/// were served in different threads. A law: it computes nothing that is kept. (lookd)
pub fn share_a_list<J: Shelves>(one: &Desk<Edition, J>, two: &Desk<Edition, J>)
    ensures { (all : List Standing) × IsChain Opens Follows all × IsPrefix one.now.seen all × IsPrefix two.now.seen all }
{
    one.compare(two);
    two.compare(one);
    if one.len() <= two.len() {
        two.compare(two);
    } else {
        one.compare(one);
    }
}
