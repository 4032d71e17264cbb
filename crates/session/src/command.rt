//! The commands, and how they are read.
ghost use Rattle.std.specs.Prelude.{◌≡◌, ◌<◌, ◌∷◌, ◌++◌, Bool, true, false, length, MatchResult};
ghost use Rattle.session.specs.Spelled.{word, stops as stops_after, Unknown, Missing};
ghost use Rattle.session.specs.Reading.{Read, ReadFault};
ghost use Rattle.session.specs.declared.command.Command.TheVariants.{Call as call_command};

use ledger::call::Call;

/// One command. Its name is the input's own bytes.
#[derive(Clone, Copy)]
pub enum Command<'a> {
    /// The hold's name.
    Name(&'a [u8]),
    /// A vertex, by its coordinates.
    Vertex(u16, u16, u16),
    /// A triangle, by its corners.
    Triangle(u16, u16, u16),
    /// Open the surface, with the gauge of this number.
    Open(u8),
    /// Make a call on the opened surface.
    Call(Call),
    /// Write the live triangles.
    Write,
    End,
}

/// Why no command is read.
// Kept: reading finds two of the ten refusals, so by `Refusal` its clauses would deny the eight others, and the end of the input is none of them.
#[derive(Clone, Copy)]
pub enum Fault {
    /// The input is over.
    Over,
    /// No command begins with the byte.
    Unknown,
    /// The input ends before the command's operands do.
    Missing,
}

impl<'a> Command<'a> {
    /// The command that the bytes begin with, and the bytes after it. Calls are read only where `CALLS` is true.
    pub fn read<const CALLS: bool>(bytes: &'a [u8]) -> Result<(Command<'a>, &'a [u8]), Fault>
        ensures read { MatchResult result (λ p. Read CALLS bytes.now p.0 p.1.now) (ReadFault CALLS bytes.now) }
    {
        let (&letter, rest) = bytes.split_first().ok_or(Fault::Over)?;
        match letter {
            b'N' => {
                let (name, rest) = read_name(rest)?;
                Ok((Command::Name(name), rest))
            }
            b'V' => {
                let ((x, y, z), rest) = read_words(rest)?;
                Ok((Command::Vertex(x, y, z), rest))
            }
            b'T' => {
                let ((a, b, c), rest) = read_words(rest)?;
                Ok((Command::Triangle(a, b, c), rest))
            }
            b'O' => {
                let (&gauge, rest) = rest.split_first().ok_or(Fault::Missing)?;
                Ok((Command::Open(gauge), rest))
            }
            b'W' => Ok((Command::Write, rest)),
            b'E' => Ok((Command::End, rest)),
            _ if CALLS => {
                let (call, rest) = read_call(letter, rest)?;
                Ok((Command::Call(call), rest))
            }
            _ => Err(Fault::Unknown),
        }
    }

    /// Whether the session stops after this command.
    pub fn stops(&self) -> bool
        ensures value { result ≡ stops_after self.now }
    {
        matches!(self, Command::End)
    }
}

// A name, after its letter: a count and that many bytes.
fn read_name(bytes: &[u8]) -> Result<(&[u8], &[u8]), Fault>
    ensures read { MatchResult result (λ p. bytes.now ≡ length p.0.now ∷ p.0.now ++ p.1.now) (λ e. (e ≡ Fault.Missing) × ((calls : Bool) → Missing calls (78 ∷ bytes.now))) }
{
    let (&count, rest) = bytes.split_first().ok_or(Fault::Missing)?;
    rest.split_at_checked(usize::from(count))
        .ok_or(Fault::Missing)
}

// The call of this letter, by the operands that the bytes begin with.
fn read_call(letter: u8, bytes: &[u8]) -> Result<(Call, &[u8]), Fault>
    requires other { Unknown false letter }
    ensures read { MatchResult result (λ p. Read true (letter ∷ bytes.now) (call_command p.0) p.1.now) (ReadFault true (letter ∷ bytes.now)) }
{
    match letter {
        b'C' => {
            let (u, rest) = read_word(bytes)?;
            let (w, rest) = read_word(rest)?;
            Ok((Call::Collapse(u, w), rest))
        }
        b'S' => Ok((Call::Step, bytes)),
        b'P' => Ok((Call::Split, bytes)),
        b'R' => Ok((Call::Redo, bytes)),
        b'G' => {
            let (target, rest) = read_word(bytes)?;
            Ok((Call::Go(usize::from(target)), rest))
        }
        _ => Err(Fault::Unknown),
    }
}

// The three numbers that the bytes begin with.
fn read_words(bytes: &[u8]) -> Result<((u16, u16, u16), &[u8]), Fault>
    ensures read { MatchResult result (λ p. bytes.now ≡ word p.0.0 ++ (word p.0.1 ++ (word p.0.2 ++ p.1.now))) (λ e. (e ≡ Fault.Missing) × (length bytes.now < 6)) }
{
    let (a, rest) = read_word(bytes)?;
    let (b, rest) = read_word(rest)?;
    let (c, rest) = read_word(rest)?;
    Ok(((a, b, c), rest))
}

// The number of 16 bits that the bytes begin with, low byte first.
fn read_word(bytes: &[u8]) -> Result<(u16, &[u8]), Fault>
    ensures read { MatchResult result (λ p. bytes.now ≡ word p.0 ++ p.1.now) (λ e. (e ≡ Fault.Missing) × (length bytes.now < 2)) }
{
    let [low, high, rest @ ..] = bytes else {
        return Err(Fault::Missing);
    };
    Ok((u16::from_le_bytes([*low, *high]), rest))
}
