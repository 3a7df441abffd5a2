//! Two counters, whose entries are the numbers of the counter that was added to.
ghost use Rattle.std.specs.Prelude.{◌≡◌, ◌==◌, false, [], ◌∷◌, refl};
ghost use Rattle.std.proofs.Common.{lit≤, sym, true≢false};
ghost use Rattle.std.proofs.lemmas.Bool.{eqb-true, eq-eqb};
ghost use Rattle.dm_spine.specs.Past.{In};
ghost use Rattle.dm_spine.specs.Passes.{IsBeside, kept_by, seen_by};

use crate::{Note, Parts, Pass, Spine};
use std::test::Fail;

#[derive(Drop)]
struct Counters;

impl Parts for Counters {
    type Name = u8;

    type Entry = u8;

    ghost meaning = { record {
      same = λ x y. x == y;
      fixed = λ _. 0 ∷ (1 ∷ []);
      about = λ e x. e == x;
      home = λ e. e;
      makes = λ _ _. [];
      ends = λ _ _. false;
      maker = λ x. x;
      needs = λ _ _ _. Unit {0};
      follows = λ _ _ _ _. Unit {0};
    } };

    ghost lawful = { record {
      same_is = λ x y e. eqb-true x y e;
      same_self = λ x. eq-eqb x x refl;
      home_about = λ e. eq-eqb e e refl;
      ends_about = λ e x h. absurd (true≢false (sym h));
      makes_about = λ n e x h. absurd h;
      makes_loose = λ p n e x h t. h;
      homes_stay = λ n e f h. h;
      fixed_few = λ p. lit≤ tt;
      needs_grow = λ p xs ys e part legal more same h. tt;
    } };
}

#[derive(Drop)]
struct Added {
    counter: u8,
}

impl Note<Counters> for Added {
    ghost entry = { λ added. added.counter };
}

fn add(pass: &mut Pass<Counters>, counter: u8) -> u64
    requires keeps { In counter (kept_by pass.old) }
    requires nothing_seen { seen_by pass.old ≡ [] }
    ensures beside { IsBeside pass.old pass.new }
    ensures keeps { kept_by pass.new ≡ kept_by pass.old }
{
    pass.draw(&Added { counter })
}

#[test]
fn two_passes_draw_from_one_count(rt: HostRuntime) -> Result<(), Fail> {
    let (_spine, mut first) = Spine::begin(rt.alloc(), Counters)?;
    let note = first.split(rt.alloc(), Vec::new(rt.alloc()))?;
    let mut second = first.split(rt.alloc(), vec![in rt.alloc(); 1]?)?;
    let zero = add(&mut first, 0);
    let one = add(&mut second, 1);
    first.give(&mut second, 0);
    second.join(note);
    second.join(first);
    let _past = second.finish();
    assert_eq!(rt; (zero, one), (0, 1));
    Ok(())
}
