// The text of each reply, with no newline.
ghost use Rattle.std.specs.Prelude.{◌≡◌, ◌<◌, length, IfOk, Some, string_bytes};
ghost use Rattle.std.specs.Str.{IsAscii};
ghost use Rattle.script.specs.Replies.{Bytes, Target, Signed, bit_char, bit_text, signed_bytes, reply_bytes, answer_of};

use crate::hex::Hex;
use ring::{Class, Fault};
use std::alloc::{AllocError, Global};
use std::{fmt, str};

#[derive(Drop)]
pub enum Reply {
    Done,
    Loaded(Class),
    Bytes(Vec<u8>),
    Number(usize),
    Target(Vec<u8>),
    // The squared length, whether the signature is as it was, and the signature.
    Signed {
        length: u32,
        kept: bool,
        signature: Vec<u8>,
    },
    // Signatures issued, the capacity, and whether an order is standing.
    Counted {
        issued: u32,
        capacity: u32,
        standing: bool,
    },
    Refused(Fault),
    BadLine,
    NoOrder,
    NoSession,
    SessionOpen,
    NoMemory,
}

fn bit_char(b: u8) -> char
    ensures value { result ≡ bit_char b }
    ensures ascii { result < 128 }
{
    if b == 0 { '0' } else { '1' }
}

// Writes 0 or 1 for each byte.
fn write_bits(bits: &[u8], text: &mut [u8])
    requires { length text.old ≡ length bits.now }
    ensures text { text.new ≡ bit_text bits.now }
    ensures ascii { IsAscii text.new }
{
    for (i, b) in bits.iter().enumerate() {
        text[i] = bit_char(*b) as u8;
    }
}

// Prints 0 or 1 for each byte.
#[derive(Clone, Copy)]
struct Bits<'a>(&'a [u8]);

impl fmt::Display for Bits<'_> {
    ghost output = { λ bits. Some (bit_text bits.0.now) };

    fn fmt<W: fmt::Write>(&self, f: &mut fmt::Formatter<W>) -> fmt::Result {
        // A group at a time, as `Hex`; the groups of both are of another length.
        let mut memory = [0u8; 128];
        for group in self.0.chunks(128) {
            let text = &mut memory[..group.len()];
            write_bits(group, text);
            let Ok(text) = str::from_utf8(text) else {
                unreachable!();
            };
            f.write_str(text)?;
        }
        Ok(())
    }
}

// Prints `ok`, the squared length, whether the signature is as it was, and the signature.
#[derive(Clone, Copy)]
struct SignedReply<'a> {
    length: u32,
    kept: bool,
    signature: &'a [u8],
}

impl fmt::Display for SignedReply<'_> {
    ghost output = { λ s. Some (signed_bytes s.length s.kept s.signature.now) };

    fn fmt<W: fmt::Write>(&self, f: &mut fmt::Formatter<W>) -> fmt::Result {
        let length = self.length;
        let kept = if self.kept { "kept" } else { "changed" };
        let signature = Hex(self.signature);
        write!(f, "ok {length} {kept} {signature}")
    }
}

impl fmt::Display for Reply {
    ghost output = { λ reply. Some (reply_bytes (answer_of reply)) };

    fn fmt<W: fmt::Write>(&self, f: &mut fmt::Formatter<W>) -> fmt::Result {
        match self {
            Reply::Done => f.write_str("ok"),
            Reply::Loaded(class) => write!(f, "ok {} {}", class.code(), class.size()),
            Reply::Bytes(bytes) => write!(f, "ok {}", Hex(bytes.as_slice())),
            Reply::Number(n) => write!(f, "ok {n}"),
            Reply::Target(bits) => write!(f, "ok {}", Bits(bits.as_slice())),
            Reply::Signed {
                length,
                kept,
                signature,
            } => {
                let reply = SignedReply {
                    length: *length,
                    kept: *kept,
                    signature: signature.as_slice(),
                };
                write!(f, "{reply}")
            }
            Reply::Counted {
                issued,
                capacity,
                standing,
            } => {
                let standing = if *standing { "standing" } else { "idle" };
                write!(f, "ok {issued} {capacity} {standing}")
            }
            Reply::Refused(fault) => write!(f, "refused {fault}"),
            Reply::BadLine => f.write_str("bad line"),
            Reply::NoOrder => f.write_str("no order"),
            Reply::NoSession => f.write_str("no session"),
            Reply::SessionOpen => f.write_str("session open"),
            Reply::NoMemory => f.write_str("no memory"),
        }
    }
}

// `ok` and bytes. This and the next two lend what a `Reply` would own.
pub fn bytes_text(heap: Global, bytes: &[u8]) -> Result<String, AllocError>
    ensures { IfOk result (λ t. string_bytes t ≡ reply_bytes (Bytes bytes.now)) }
{
    format!(in heap; "ok {}", Hex(bytes))
}

// `ok` and the bits of a target, a byte each.
pub fn target_text(heap: Global, bits: &[u8]) -> Result<String, AllocError>
    ensures { IfOk result (λ t. string_bytes t ≡ reply_bytes (Target bits.now)) }
{
    format!(in heap; "ok {}", Bits(bits))
}

// `ok`, the squared length, whether the signature is as it was, and the signature.
pub fn signed_text(
    heap: Global,
    length: u32,
    kept: bool,
    signature: &[u8],
) -> Result<String, AllocError>
    ensures { IfOk result (λ t. string_bytes t ≡ reply_bytes (Signed length kept signature.now)) }
{
    let reply = SignedReply {
        length,
        kept,
        signature,
    };
    reply.to_string(heap)
}

// The text of a reply.
pub fn reply_text(heap: Global, reply: &Reply) -> Result<String, AllocError>
    ensures { IfOk result (λ t. string_bytes t ≡ reply_bytes (answer_of reply.now)) }
{
    reply.to_string(heap)
}
