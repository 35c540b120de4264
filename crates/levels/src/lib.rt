// A coordinate in levels, a single, and the whole number nearest 1024 times it. Document 02, R-3.
#![tactic(auto)]

ghost use Rattle.std.specs.Prelude.{◌≡◌, ◌%◌, ◌/◌, ◌<◌};
ghost use Rattle.line.specs.Table.{every};
ghost use Rattle.levels.specs.Levels.{is_finite, in_reach, turned_levels};

// A point's coordinates in levels.
#[derive(Clone, Copy)]
pub struct Levels {
    pub re: f32,
    pub im: f32,
}

// A turn of 90°.
pub fn turn(p: Levels) -> Levels
    ensures { result ≡ turned_levels p }
{
    Levels {
        re: -p.im,
        im: p.re,
    }
}

// Whether a number of a reading is one: no NaN and no infinity.
#[tactic(auto, using(crate::proofs::FieldLaws::finite_law))]
pub fn is_finite(v: f32) -> bool
    ensures { result ≡ is_finite v }
{
    v.is_finite()
}

// Whether neither number 18 nor number 8 refuses a coordinate: 16384.5 units, which tie to 16384, are the most.
pub fn in_reach(v: f32) -> bool
    ensures { result ≡ in_reach v }
{
    (-16.00048828125 <= v) & (v <= 16.00048828125)
}

// Whether none of many does. All are looked at, since nearly always none is refused. (Why the loop stands twice: `line::all_in_range`.)
pub fn all_in_reach(levels: &[f32]) -> bool
    ensures { result ≡ every in_reach levels.now }
{
    let mut all = true;
    for x in levels {
        all &= in_reach(*x);
    }
    all
}

// Whether each of many is a number.
pub fn all_finite(levels: &[f32]) -> bool
    ensures { result ≡ every is_finite levels.now }
{
    let mut all = true;
    for x in levels {
        all &= is_finite(*x);
    }
    all
}
