//! The messages of replies, each appended as its bytes.

ghost use Rattle.std.specs.Prelude.{◌≡◌, ◌≤◌, ◌^◌, ◌++◌, ◌∷◌, [], IfOk, IsTrue, OnOk, length, nat_lt, codes, true};
ghost use Rattle.std.specs.Fmt.{decimal};
ghost use Rattle.std.specs.List.{flat_map, list_all};
ghost use Rattle.pg_wire.specs.declared.back.Back.TheVariants as backs;
ghost use Rattle.pg_wire.specs.Backs.{back_frame};
ghost use Rattle.machine_replies.specs.Replies.{IsWritable, completed, error_field, error_of, ready, startup_messages, status};

use acra_base::{Bytes, NoMemory, Sequence};
use pg_wire::{Back, ErrorField, Pair, write_back};
use sql_tree::Statement;
use std::alloc::Global;

/// Appends the messages that begin a session.
pub fn write_startup(alloc: Global, session: u16, out: &mut Vec<u8>) -> Result<(), NoMemory>
    ensures { OnOk result (out.new.items ≡ out.old.items ++ flat_map back_frame (startup_messages session)) }
{
    write_authenticated(alloc, out)?;
    write_status(alloc, b"client_encoding", b"UTF8", out)?;
    write_status(alloc, b"standard_conforming_strings", b"on", out)?;
    write_key_data(session, out)?;
    write_ready(out)
}

fn write_authenticated(alloc: Global, out: &mut Vec<u8>) -> Result<(), NoMemory>
    ensures { OnOk result (out.new.items ≡ out.old.items ++ back_frame (backs.Auth 0 [])) }
{
    let rest = Bytes::new(alloc);
    write_back(&Back::Auth { code: 0, rest }, out)
}

/// Appends BackendKeyData, where the session's number stands for its process.
fn write_key_data(session: u16, out: &mut Vec<u8>) -> Result<(), NoMemory>
    ensures { OnOk result (out.new.items ≡ out.old.items ++ back_frame (backs.KeyData session 0)) }
{
    let message = Back::KeyData {
        process: session as u32,
        key: 0,
    };
    write_back(&message, out)
}

/// Appends ReadyForQuery in the state idle.
pub fn write_ready(out: &mut Vec<u8>) -> Result<(), NoMemory>
    ensures { OnOk result (out.new.items ≡ out.old.items ++ back_frame ready) }
{
    write_back(&Back::Ready(b'I'), out)
}

fn write_status(alloc: Global, name: &[u8], value: &[u8], out: &mut Vec<u8>) -> Result<(), NoMemory>
    requires { IsWritable (status name.now value.now) }
    ensures { OnOk result (out.new.items ≡ out.old.items ++ back_frame (status name.now value.now)) }
{
    let pair = Pair {
        name: Bytes::copied(alloc, name)?,
        value: Bytes::copied(alloc, value)?,
    };
    write_back(&Back::Status(pair), out)
}

// The longest code or text of an error, in bytes.
const LONGEST_TEXT: usize = 1 << 28;

fn has_no_zero(text: &[u8]) -> bool
    ensures { result ≡ list_all (nat_lt 0) text.now }
{
    text.iter().all(|byte| 0 < *byte)
}

/// Whether an error can tell this text.
fn can_be_told(text: &[u8]) -> bool
    ensures short { IsTrue result → length text.now ≤ 2 ^ 28 }
    ensures text { IsTrue result → list_all (nat_lt 0) text.now ≡ true }
{
    text.len() <= LONGEST_TEXT && has_no_zero(text)
}

/// Appends an error with its SQLSTATE code and message. One that can't be written is want of memory: it has a
/// zero byte or is longer than 2^28 bytes.
pub fn write_error(
    alloc: Global,
    code: &[u8],
    text: &[u8],
    out: &mut Vec<u8>,
) -> Result<(), NoMemory>
    ensures appended { OnOk result (out.new.items ≡ out.old.items ++ back_frame (error_of code.now text.now)) }
    ensures writable { OnOk result (IsWritable (error_of code.now text.now)) }
{
    if !can_be_told(code) || !can_be_told(text) {
        return Err(NoMemory);
    }
    write_told(alloc, code, text, out)
}

/// Appends an error that can be written.
fn write_told(alloc: Global, code: &[u8], text: &[u8], out: &mut Vec<u8>) -> Result<(), NoMemory>
    requires { IsWritable (error_of code.now text.now) }
    ensures { OnOk result (out.new.items ≡ out.old.items ++ back_frame (error_of code.now text.now)) }
{
    let mut fields = Sequence::new(alloc);
    fields.push(error_field(alloc, b'S', b"ERROR")?)?;
    fields.push(error_field(alloc, b'V', b"ERROR")?)?;
    fields.push(error_field(alloc, b'C', code)?)?;
    fields.push(error_field(alloc, b'M', text)?)?;
    write_back(&Back::Error(fields), out)
}

fn error_field(alloc: Global, code: u8, text: &[u8]) -> Result<ErrorField, NoMemory>
    ensures { IfOk result (λ field. field ≡ error_field code text.now) }
{
    Ok(ErrorField {
        code,
        text: Bytes::copied(alloc, text)?,
    })
}

/// Appends the end of the reply to an executed statement.
pub fn write_completed(
    alloc: Global,
    statement: &Statement,
    count: u64,
    out: &mut Vec<u8>,
) -> Result<(), NoMemory>
    ensures appended { OnOk result (out.new.items ≡ out.old.items ++ back_frame (completed statement.now count)) }
    ensures writable { OnOk result (IsWritable (completed statement.now count)) }
{
    match statement {
        Statement::Empty => write_empty(out),
        Statement::Set { .. } => write_set(alloc, out),
        Statement::Select { .. } => write_tag(alloc, "SELECT ", count, out),
        Statement::Insert { .. } => write_tag(alloc, "INSERT 0 ", count, out),
        Statement::Update { .. } => write_tag(alloc, "UPDATE ", count, out),
        Statement::Delete { .. } => write_tag(alloc, "DELETE ", count, out),
    }
}

/// Appends EmptyQueryResponse.
fn write_empty(out: &mut Vec<u8>) -> Result<(), NoMemory>
    ensures appended { OnOk result (out.new.items ≡ out.old.items ++ back_frame backs.EmptyQuery) }
    ensures writable { IsWritable backs.EmptyQuery }
{
    write_back(&Back::EmptyQuery, out)
}

/// Appends the CommandComplete of a SET.
fn write_set(alloc: Global, out: &mut Vec<u8>) -> Result<(), NoMemory>
    ensures appended { OnOk result (out.new.items ≡ out.old.items ++ back_frame (backs.Complete (codes "SET"))) }
    ensures writable { IsWritable (backs.Complete (codes "SET")) }
{
    let tag = Bytes::copied(alloc, b"SET")?;
    write_back(&Back::Complete(tag), out)
}

/// Appends CommandComplete: a word and a count.
fn write_tag(alloc: Global, word: &str, count: u64, out: &mut Vec<u8>) -> Result<(), NoMemory>
    requires text { list_all (nat_lt 0) word.now ≡ true }
    requires short { length word.now ≤ 16 }
    ensures appended { OnOk result (out.new.items ≡ out.old.items ++ back_frame (backs.Complete (word.now ++ decimal count))) }
    ensures writable { OnOk result (IsWritable (backs.Complete (word.now ++ decimal count))) }
{
    let tag = format!(in alloc; "{word}{count}")?;
    write_back(&Back::Complete(Bytes::from_vec(tag.into_bytes())), out)
}
