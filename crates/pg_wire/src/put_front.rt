ghost use Rattle.std.specs.Prelude.{◌≡◌, ◌++◌, ◌∷◌, List, Option, OnOk};
ghost use Rattle.byte_reader.specs.Fields.{str};
ghost use Rattle.pg_wire.specs.Fronts.{IsParse, IsBind, IsFront, target_byte, front_body};
ghost use Rattle.pg_wire.specs.declared.front.Front.TheVariants as fronts;

use crate::front::{CANCEL_REQUEST, Front, GSS_REQUEST, PROTOCOL, Pair, TLS_REQUEST, Target};
use crate::put::{put_cells, put_pairs, put_str, put_u16s, put_u32, put_u32s};
use acra_base::{Bytes, NoMemory};

/// Puts the body of a startup packet at the end.
fn put_startup(params: &[Pair], out: &mut Vec<u8>) -> Result<(), NoMemory>
    ensures { OnOk result (out.new.items ≡ out.old.items ++ front_body (fronts.Startup params.now)) }
{
    put_u32(PROTOCOL, out)?;
    put_pairs(params, out)?;
    out.push(0)?;
    Ok(())
}

/// Puts the body of a CancelRequest at the end.
fn put_cancel(process: u32, key: u32, out: &mut Vec<u8>) -> Result<(), NoMemory>
    ensures { OnOk result (out.new.items ≡ out.old.items ++ front_body (fronts.Cancel process key)) }
{
    put_u32(CANCEL_REQUEST, out)?;
    put_u32(process, out)?;
    put_u32(key, out)
}

/// Puts the body of a Parse at the end.
fn put_parse(name: &Bytes, text: &Bytes, types: &[u32], out: &mut Vec<u8>) -> Result<(), NoMemory>
    requires { IsParse name.now text.now types.now }
    ensures { OnOk result (out.new.items ≡ out.old.items ++ front_body (fronts.Parse name.now text.now types.now)) }
{
    put_str(name, out)?;
    put_str(text, out)?;
    put_u32s(types, out)
}

/// Puts the body of a Bind at the end.
fn put_bind(
    portal: &Bytes,
    name: &Bytes,
    formats: &[u16],
    values: &[Option<Bytes>],
    results: &[u16],
    out: &mut Vec<u8>,
) -> Result<(), NoMemory>
    requires { IsBind portal.now name.now formats.now values.now results.now }
    ensures { OnOk result (out.new.items ≡ out.old.items ++ front_body (fronts.Bind portal.now name.now formats.now values.now results.now)) }
{
    put_str(portal, out)?;
    put_str(name, out)?;
    put_u16s(formats, out)?;
    put_cells(values, out)?;
    put_u16s(results, out)
}

/// Puts what a message is about, and its name, at the end.
fn put_targeted(target: Target, name: &Bytes, out: &mut Vec<u8>) -> Result<(), NoMemory>
    ensures { OnOk result (out.new.items ≡ out.old.items ++ (target_byte target ∷ str name.now)) }
{
    let byte = match target {
        Target::Prepared => b'S',
        Target::Portal => b'P',
    };
    out.push(byte)?;
    put_str(name, out)
}

/// Puts the body of a client's message at the end.
pub fn put_front(message: &Front, out: &mut Vec<u8>) -> Result<(), NoMemory>
    requires { IsFront message.now }
    ensures { OnOk result (out.new.items ≡ out.old.items ++ front_body message.now) }
{
    match message {
        Front::Startup { params } => put_startup(params.as_slice(), out),
        Front::SslRequest => put_u32(TLS_REQUEST, out),
        Front::GssRequest => put_u32(GSS_REQUEST, out),
        Front::Cancel { process, key } => put_cancel(*process, *key, out),
        Front::Query(text) => put_str(text, out),
        Front::Parse { name, text, types } => put_parse(name, text, types.as_slice(), out),
        Front::Bind {
            portal,
            name,
            formats,
            values,
            results,
        } => put_bind(
            portal,
            name,
            formats.as_slice(),
            values.as_slice(),
            results.as_slice(),
            out,
        ),
        Front::Describe { target, name } | Front::Close { target, name } => {
            put_targeted(*target, name, out)
        }
        Front::Execute { portal, limit } => {
            put_str(portal, out)?;
            put_u32(*limit, out)
        }
        Front::Sync | Front::Flush | Front::Terminate => Ok(()),
        Front::Password(bytes) => {
            out.extend_from_slice(bytes.as_slice())?;
            Ok(())
        }
    }
}
