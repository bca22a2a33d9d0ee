ghost use Rattle.std.specs.Prelude.{◌≡◌, ◌⊎◌, ◌++◌, ◌∷◌, [], IfOk, OnErr, OnOk, codes, true, false};
ghost use Rattle.std.specs.List.{AllByRecursion, flat_map};
ghost use Rattle.pg_wire.specs.declared.front.Front.TheVariants as fronts;
ghost use Rattle.pg_wire.specs.Backs.{back_frame};
ghost use Rattle.sql_tree.specs.Spelling.{parameters};
ghost use Rattle.sql_tree.specs.WellFormed.{has_one, is_grammatical};
ghost use Rattle.table_machine.specs.Stored.{stored};
ghost use Rattle.table_machine.specs.Tables as machine;
ghost use Rattle.lab_backend.specs.Backend.{statement_messages, statement_tables};
ghost use Rattle.machine_replies.specs.Replies.{IsWritable, error_of, messages_of, ready};
ghost use Rattle.lab_backend.specs.Serving.{IsServed, MayReply, Replied};

use crate::connection::TEXT_LIMIT;
use crate::parameters::has_parameter;
use crate::replies::{write_error, write_ready, write_startup};
use crate::results::write_outcome;
use acra_base::NoMemory;
use pg_wire::Front;
use sql_parser::{ParseFault, parse};
use sql_tree::Statement;
use std::alloc::Global;
use table_machine::Outcome;
use table_store::Tables;

/// Executes a request and appends its reply.
pub fn answer_request(
    alloc: Global,
    tables: &mut Tables,
    session: u16,
    request: Front,
    out: &mut Vec<u8>,
) -> Result<(), NoMemory>
    requires { IsServed request }
    ensures ok { OnOk result (Replied session request tables.old tables.new out.old.items out.new.items) }
    ensures err { OnErr result (MayReply session request tables.old tables.new) }
{
    match request {
        Front::Startup { params: _params } => write_startup(alloc, session, out),
        Front::Query(text) => answer_text(alloc, tables, text.as_slice(), out),
        _ => unreachable!(),
    }
}

/// Executes a text and appends its reply.
fn answer_text(
    alloc: Global,
    tables: &mut Tables,
    text: &[u8],
    out: &mut Vec<u8>,
) -> Result<(), NoMemory>
    ensures ok { OnOk result (Replied 0 (fronts.Query text.now) tables.old tables.new out.old.items out.new.items) }
    ensures err { OnErr result (MayReply 0 (fronts.Query text.now) tables.old tables.new) }
{
    match parse(alloc, text, TEXT_LIMIT) {
        Ok(statement) => answer_statement(alloc, tables, &statement, out),
        Err(ParseFault::Refused(_)) => refuse(alloc, b"42601", b"lab: not in the profile", out),
        Err(ParseFault::NoMemory) => Err(NoMemory),
    }
}

/// Appends the reply to a text that is not executed.
fn refuse(alloc: Global, code: &[u8], text: &[u8], out: &mut Vec<u8>) -> Result<(), NoMemory>
    ensures appended { OnOk result (out.new.items ≡ out.old.items ++ flat_map back_frame (error_of code.now text.now ∷ ready ∷ [])) }
    ensures writable { OnOk result (AllByRecursion IsWritable (error_of code.now text.now ∷ ready ∷ [])) }
{
    write_error(alloc, code, text, out)?;
    write_ready(out)
}

/// Executes a statement and appends its reply. One with a parameter is refused.
fn answer_statement(
    alloc: Global,
    tables: &mut Tables,
    statement: &Statement,
    out: &mut Vec<u8>,
) -> Result<(), NoMemory>
    requires { is_grammatical statement.now ≡ true }
    ensures appended { OnOk result (out.new.items ≡ out.old.items ++ flat_map back_frame (statement_messages statement.now tables.old ++ ready ∷ [])) }
    ensures writable { OnOk result (AllByRecursion IsWritable (statement_messages statement.now tables.old ++ ready ∷ [])) }
    ensures ok { OnOk result (tables.new ≡ statement_tables statement.now tables.old) }
    ensures err { OnErr result ((tables.new ≡ tables.old) ⊎ (tables.new ≡ statement_tables statement.now tables.old)) }
{
    if has_parameter(statement) {
        return refuse(alloc, b"08P01", b"lab: wrong count of parameters", out);
    }
    execute_statement(alloc, tables, statement, out)
}

/// Executes a statement that has no parameter and appends its reply.
fn execute_statement(
    alloc: Global,
    tables: &mut Tables,
    statement: &Statement,
    out: &mut Vec<u8>,
) -> Result<(), NoMemory>
    requires { is_grammatical statement.now ≡ true }
    ensures appended { OnOk result (out.new.items ≡ out.old.items ++ flat_map back_frame (messages_of statement.now (machine.told (machine.answered (stored []) statement.now tables.old)) ++ ready ∷ [])) }
    ensures writable { OnOk result (AllByRecursion IsWritable (messages_of statement.now (machine.told (machine.answered (stored []) statement.now tables.old)) ++ ready ∷ [])) }
    ensures ok { OnOk result (tables.new ≡ machine.executed (stored []) statement.now tables.old) }
    ensures err { OnErr result ((tables.new ≡ tables.old) ⊎ (tables.new ≡ machine.executed (stored []) statement.now tables.old)) }
{
    let outcome = outcome_of(tables, statement)?;
    write_outcome(alloc, statement, &outcome, out)?;
    write_ready(out)
}

/// What a statement gives. The empty one touches no table.
fn outcome_of(tables: &mut Tables, statement: &Statement) -> Result<Outcome, NoMemory>
    requires { is_grammatical statement.now ≡ true }
    ensures ok { IfOk result (λ outcome. (outcome ≡ machine.told (machine.answered (stored []) statement.now tables.old)) × (tables.new ≡ machine.executed (stored []) statement.now tables.old)) }
    ensures err { OnErr result (tables.new ≡ tables.old) }
{
    match statement {
        Statement::Empty => Ok(Outcome::Count(0)),
        _ => tables.exec(statement, &[]),
    }
}
