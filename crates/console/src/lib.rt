// Standard input, standard output and the arguments of the commands, and what a command says of its end on standard error: nothing where all
// went well, else one line, by which the front tells a sentence and a status.
#![tactic(auto)]

ghost use Rattle.std.specs.Prelude.{◌≡◌, IfErr, IfOk, OnErr, take};
ghost use Rattle.std.specs.Counts.{IsPrefixLen};
ghost use Rattle.console.specs.declared.Stop.TheVariants.{Refused};
ghost use Rattle.console.specs.Reading.{Behind, Carried};
ghost use Rattle.console.specs.Words.{number};

use line::Refusal;
use std::io::{Cursor, Eprint, Print, Read, Write};
use std::rt::Env;
use std::{fmt, io};

// Why a command stops before its work is done: reading or writing failed, or a call was refused, after so many events or bits.
#[derive(Drop)]
pub enum Stop {
    Read(io::Error),
    Write(io::Error),
    Refused { refusal: Refusal, after: u64 },
}

// A call that is refused before any event or bit.
impl From<Refusal> for Stop {
    ghost from_gives = { λ refusal stop. stop ≡ Refused refusal 0 };

    fn from(refusal: Refusal) -> Stop {
        Stop::Refused { refusal, after: 0 }
    }
}

// ---- reading

// What a read behind the first bytes of a buffer gives: whether the input has ended, and how many bytes stand at the front of the buffer now.
// `ended` is a flag, since an input's end is no failure, and what came before it counts.
#[derive(Clone, Copy)]
pub struct Came {
    pub ended: bool,
    pub count: usize,
}

// One read into `buf` behind its first `have` bytes; where there is no room behind them, none.
pub fn read_more<R: Read>(input: &mut R, buf: &mut [u8], have: usize) -> Result<Came, Stop>
    ensures ok { IfOk result (λ came. Behind have buf.old buf.new came) }
    ensures err { OnErr result ((take have buf.new ≡ take have buf.old) × IsPrefixLen have buf.new) }
{
    if buf.len() <= have {
        return Ok(Came {
            ended: false,
            count: buf.len(),
        });
    }
    match input.read(&mut buf[have..]) {
        Ok(n) => Ok(Came {
            ended: n == 0,
            count: have + n,
        }),
        Err(error) => Err(Stop::Read(error)),
    }
}

// Why a buffer was not filled: what stopped the reading, and how many bytes had come before it.
#[derive(Drop)]
pub struct Unread {
    pub stop: Stop,
    pub count: usize,
}

impl From<Unread> for Stop {
    ghost from_gives = { λ unread stop. stop ≡ unread.stop };

    fn from(unread: Unread) -> Stop {
        unread.stop
    }
}

// Reads until `buf` is full or the input ends; how many bytes came.
pub fn read_whole<R: Read>(input: &mut R, buf: &mut [u8]) -> Result<usize, Unread>
    ensures ok { IfOk result (λ n. IsPrefixLen n buf.new) }
    ensures err { IfErr result (λ unread. IsPrefixLen unread.count buf.new) }
{
    let mut have = 0;
    // No `for`: a turn goes on by as many bytes as came.
    while have < buf.len() {
        match read_more(input, buf, have) {
            Ok(came) if have < came.count => have = came.count,
            Ok(_) => break,
            Err(stop) => return Err(Unread { stop, count: have }),
        }
    }
    Ok(have)
}

// Takes steps until one answers that the input has ended, or stops; what the last one gave. A proved loop has to end, and nothing says that an
// input does: this one counts up to a number that no run comes to. What it requires is what any closure that is handed in needs.
pub fn until_ended<F: FnMut() -> Result<bool, Stop>>(mut step: F) -> Result<bool, Stop>
    requires { F.IsAlwaysCallable step }
    ensures { (before after : F) × F.step before result after }
{
    let mut given = step();
    for _ in 1..u64::MAX {
        match given {
            Ok(false) => given = step(),
            last => return last,
        }
    }
    given
}

// Reads the rest of the input, which is not kept, so that whoever writes it is not cut off. That reading it failed is not told.
pub fn skip_rest<R: Read>(input: &mut R) {
    let mut buf = [0u8; 65536];
    let _ = until_ended(|| Ok(input.read(&mut buf).map_err(Stop::Read)? == 0));
}

// Reads what `buf` holds, and passes over the rest of the input; how many bytes of `buf` came.
pub fn read_kept<R: Read>(input: &mut R, buf: &mut [u8]) -> Result<usize, Unread>
    ensures ok { IfOk result (λ n. IsPrefixLen n buf.new) }
    ensures err { IfErr result (λ unread. IsPrefixLen unread.count buf.new) }
{
    let count = read_whole(input, buf)?;
    if count == buf.len() {
        skip_rest(input);
    }
    Ok(count)
}

// The bytes from `from` to `to` carried to the front, where the next ones are read behind them; how many they are.
pub fn carry(buf: &mut [u8], from: usize, to: usize) -> usize
    ensures { Carried buf.old from to buf.new result }
{
    let end = to.min(buf.len());
    let start = from.min(end);
    buf.copy_within(start..end, 0);
    end - start
}

// ---- arguments

// The number that a word of digits says; never above the greatest u64.
#[tactic(auto, unfolding(crate::specs::Words::number))]
pub fn number_of(word: &[u8]) -> u64
    ensures { result ≡ number word.now }
{
    let mut n: u64 = 0;
    for c in word {
        if !c.is_ascii_digit() {
            return n;
        }
        n = n.saturating_mul(10).saturating_add(u64::from(c - b'0'));
    }
    n
}

// Argument i as a number; one that is missing or longer than 32 characters counts as the greatest.
pub fn number_argument(rt: &impl Env, i: usize) -> u64 {
    let mut word = [0u8; 32];
    match rt.arg(i, &mut word) {
        Ok(length) => number_of(&word[..length]),
        Err(_) => u64::MAX,
    }
}

// Argument i as a number of at most 255; a greater one counts as 255, which is no mode and no role.
pub fn small_argument(rt: &impl Env, i: usize) -> u8 {
    u8::try_from(number_argument(rt, i)).unwrap_or(u8::MAX)
}

// Argument i as a number of 32 bits; a greater one counts as the greatest.
pub fn wide_argument(rt: &impl Env, i: usize) -> u32 {
    u32::try_from(number_argument(rt, i)).unwrap_or(u32::MAX)
}

// ---- writing

// Writes to standard output.
pub fn emit(rt: &impl Print, bytes: &[u8]) -> Result<(), Stop> {
    rt.write_all(bytes).map_err(Stop::Write)
}

// Writes the first n bytes, or all where there are fewer.
pub fn emit_first(rt: &impl Print, bytes: &[u8], n: usize) -> Result<(), Stop> {
    emit(rt, &bytes[..n.min(bytes.len())])
}

// What failed, and the system's words for why, without the number that std puts behind them.
fn write_why<W: fmt::Write>(
    f: &mut fmt::Formatter<W>,
    what: &str,
    error: &io::Error,
) -> fmt::Result {
    let mut words = Cursor::new([0u8; 320]);
    // Words that do not fit are cut off.
    let _ = write!(words, "{error}");
    let n = (words.position() as usize).min(320);
    let bytes = words.into_inner();
    let text = std::str::from_utf8(&bytes[..n]).unwrap_or("");
    let why = text
        .split_once(" (os error ")
        .map_or(text, |(front, _)| front);
    write!(f, "{what}: {why}")
}

impl fmt::Display for Stop {
    fn fmt<W: fmt::Write>(&self, f: &mut fmt::Formatter<W>) -> fmt::Result {
        match self {
            Stop::Read(error) => write_why(f, "read", error),
            Stop::Write(error) => write_why(f, "write", error),
            Stop::Refused { refusal, after } => write!(f, "refused {refusal} after {after}"),
        }
    }
}

// Says on standard error why a command stopped, if it did. Nobody is left to tell of a line that standard error did not take.
pub fn tell(rt: &impl Eprint, done: Result<(), Stop>) {
    if let Err(stop) = done {
        let _ = eprintln!(rt; "{stop}");
    }
}
