// The demodulator's readings over lent bytes, for callers in C and Rust. The layouts are those of lent_receiver.
#![tactic(auto)]

ghost use Rattle.std.specs.Prelude.{◌≡◌};
ghost use Rattle.line.specs.Refusal.{number, numbered};
ghost use Rattle.lent_readings.specs.Reading.{reading_number, reading_state, reading_bytes, refused_number};

use line::Refusal;
use readings::{Reading, Units};

// A reading that 18 or 8 refuses: the state's refusal, then 7 for too few lent bytes, then that one.
#[tactic(auto, unfolding(crate::specs::Reading::refused_number))]
fn refused(state: &[u8], answer: usize, refusal: Refusal) -> Result<(), Refusal>
    ensures { numbered result ≡ refused_number state.now answer (number refusal) }
{
    lent_receiver::state_fault(state)?;
    line::need(12 <= answer, Refusal::Lent)?;
    Err(refusal)
}

// A reading. Points and gaps go the way of those in units, through one function each: what is put in line there has one caller.
pub fn receive_reading(state: &mut [u8], reading: Reading, answer: &mut [u8]) -> Result<(), Refusal>
    ensures { (numbered result ≡ reading_number state.old answer.old reading) × (state.new ≡ reading_state state.old answer.old reading) × (answer.new ≡ reading_bytes state.old answer.old reading) }
{
    match readings::in_units(reading) {
        Ok(Units::Point(p)) => lent_receiver::receive_point(state, p.re, p.im, answer),
        Ok(Units::Gap(n)) => lent_receiver::receive_gap(state, n, answer),
        Err(refusal) => refused(state, answer.len(), refusal),
    }
}
