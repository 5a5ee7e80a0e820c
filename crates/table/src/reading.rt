// One move out of a list of places and weights.
ghost use Rattle.std.specs.Prelude.{◌≡◌, length};
ghost use Rattle.encoding.specs.Reading.{place_read};
ghost use Rattle.table.specs.Runs.{move_read};

use process::{End, Move, Place};

pub(crate) fn read_move(pair: &[u32]) -> Move
    requires { length pair.now ≡ 2 }
    ensures { result ≡ move_read pair.now 0 }
{
    let (place, weight) = (pair[0], pair[1]);
    Move {
        place: read_place(place),
        weight,
    }
}

fn read_place(number: u32) -> Place
    ensures { result ≡ place_read number }
{
    match number {
        4096 => Place::End(End::Target),
        4097 => Place::End(End::Exit),
        _ => Place::State(number),
    }
}
