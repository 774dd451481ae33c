// What a tally records.
ghost use Rattle.std.specs.Prelude.{◌≡◌, [], ◌∷◌};

use columnar_base::tally::Tally;

// Records each kind of note once, and words twice; the contract says what the tally then has.
fn noted_once_each() -> Tally
    ensures { result ≡ record { counts = 1; words = 7 ∷ 5 ∷ []; turns = 1 } }
{
    let mut tally = Tally::new();
    tally.word(7);
    tally.tick();
    tally.count();
    tally.word(5);
    tally
}

#[test]
fn a_tally_is_made_and_notes_each_kind() {
    let _tally = noted_once_each();
}
