ghost use Rattle.std.specs.Prelude.{◌≡◌, ◌++◌, List, OnOk};
ghost use Rattle.pg_wire.specs.Backs.{IsBack, back_body};
ghost use Rattle.pg_wire.specs.declared.back.Back.TheVariants as backs;

use crate::back::Back;
use crate::put::{put_cells, put_error_fields, put_fields, put_pair, put_str, put_u32, put_u32s};
use acra_base::{Bytes, NoMemory};

/// Puts the body of an Authentication at the end.
fn put_auth(code: u32, rest: &Bytes, out: &mut Vec<u8>) -> Result<(), NoMemory>
    ensures { OnOk result (out.new.items ≡ out.old.items ++ back_body (backs.Auth code rest.now)) }
{
    put_u32(code, out)?;
    out.extend_from_slice(rest.as_slice())?;
    Ok(())
}

/// Puts the body of a BackendKeyData at the end.
fn put_key_data(process: u32, key: u32, out: &mut Vec<u8>) -> Result<(), NoMemory>
    ensures { OnOk result (out.new.items ≡ out.old.items ++ back_body (backs.KeyData process key)) }
{
    put_u32(process, out)?;
    put_u32(key, out)
}

/// Puts the body of a ReadyForQuery at the end.
fn put_state(state: u8, out: &mut Vec<u8>) -> Result<(), NoMemory>
    ensures { OnOk result (out.new.items ≡ out.old.items ++ back_body (backs.Ready state)) }
{
    out.push(state)?;
    Ok(())
}

/// Puts the body of a server's message at the end.
pub fn put_back(message: &Back, out: &mut Vec<u8>) -> Result<(), NoMemory>
    requires { IsBack message.now }
    ensures { OnOk result (out.new.items ≡ out.old.items ++ back_body message.now) }
{
    match message {
        Back::Auth { code, rest } => put_auth(*code, rest, out),
        Back::Status(pair) => put_pair(pair, out),
        Back::KeyData { process, key } => put_key_data(*process, *key, out),
        Back::Ready(state) => put_state(*state, out),
        Back::Row(fields) => put_fields(fields.as_slice(), out),
        Back::Cells(cells) => put_cells(cells.as_slice(), out),
        Back::Complete(tag) => put_str(tag, out),
        Back::Error(fields) | Back::Notice(fields) => put_error_fields(fields.as_slice(), out),
        Back::Params(types) => put_u32s(types.as_slice(), out),
        Back::EmptyQuery
        | Back::ParseDone
        | Back::BindDone
        | Back::CloseDone
        | Back::NoData
        | Back::Suspended => Ok(()),
    }
}
