//! Reading conditions. What is open stands on a stack, so reading doesn't recurse, however deep they nest.

ghost use Rattle.std.specs.Prelude.{◌≡◌, IfOk, reverse, true, []};
ghost use Rattle.sql_tree.specs.Conditions.{and_of, or_of};
ghost use Rattle.sql_tree.specs.declared.condition.Cond.TheVariants as tree;
ghost use Rattle.sql_reading.specs.Levels.{nots_of, kept_as, Settles};
ghost use Rattle.sql_reading.specs.Made.{nested};
ghost use Rattle.sql_readers.specs.Productions.{cond};
ghost use Rattle.sql_reading.specs.Gives.{Gives};

use crate::comparison::read_test;
use crate::cursor::Cursor;
use crate::levels::{Depth, Level, Next};
use crate::made::Nested;
use crate::stop::Stop;
use sql_tokens::{Keyword, Sign};
use sql_tree::Cond;
use sqlite_items::{Boxed, Items};
use std::alloc::{AllocError, Global};

fn and_tree(mut parts: Items<Cond>) -> Cond
    ensures { result ≡ and_of parts }
{
    if parts.len() == 1 {
        return parts.remove(0);
    }
    Cond::And(parts)
}

fn or_tree(mut parts: Items<Cond>) -> Cond
    ensures { result ≡ or_of parts }
{
    if parts.len() == 1 {
        return parts.remove(0);
    }
    Cond::Or(parts)
}

/// What stands for a condition that is not kept.
fn stand_in(alloc: Global) -> Cond
    ensures { result ≡ tree.And [] }
{
    Cond::And(Items::new(alloc))
}

fn empty_level(alloc: Global) -> Level
    ensures { result ≡ record { ors = []; ands = []; nots = 0 } }
{
    Level {
        ors: Items::new(alloc),
        ands: Items::new(alloc),
        nots: 0,
    }
}

/// The part with its NOTs, where the condition is kept.
fn with_nots(alloc: Global, kept: bool, nots: usize, part: Cond) -> Result<Cond, AllocError>
    ensures { IfOk result (λ whole. kept ≡ true → whole ≡ nots_of nots part) }
{
    if !kept {
        return Ok(stand_in(alloc));
    }
    let mut whole = part;
    for _ in 0..nots {
        whole = Cond::Not(Boxed::new(alloc, whole)?);
    }
    Ok(whole)
}

/// Reads what comes behind a part: another part of this level or of one around it, or nothing.
fn settle(
    alloc: Global,
    cursor: &mut Cursor<'_>,
    outer: &mut Items<Level>,
    level: Level,
    depth: &mut Depth,
    part: Cond,
) -> Result<Next, Stop>
    ensures { Settles (reverse outer.old) level depth.old part cursor.old result (reverse outer.new) depth.new cursor.new }
{
    let mut level = level;
    let mut part = part;
    'levels: loop {
        let Level {
            mut ors,
            mut ands,
            nots,
        } = level;
        ands.push(with_nots(alloc, depth.is_kept(), nots, part)?)?;
        depth.leave(nots);
        if cursor.eat_word(Keyword::And) {
            return Ok(Next::Part(Level { ors, ands, nots: 0 }));
        }
        ors.push(and_tree(ands))?;
        if cursor.eat_word(Keyword::Or) {
            let ands = Items::new(alloc);
            return Ok(Next::Part(Level { ors, ands, nots: 0 }));
        }
        let Some(around) = outer.pop() else {
            return Ok(Next::Done(or_tree(ors)));
        };
        cursor.sign(Sign::Close)?;
        depth.leave(1);
        level = around;
        part = or_tree(ors);
    }
}

fn made(alloc: Global, depth: Depth, tree: Cond) -> Nested
    ensures { result ≡ kept_as depth tree }
{
    let cond = if depth.is_kept() {
        tree
    } else {
        stand_in(alloc)
    };
    Nested {
        cond,
        deepest: depth.deepest,
    }
}

/// The condition that comes. Its tree is kept where at most 128 parentheses and NOTs are open at
/// once.
pub(crate) fn read_cond(alloc: Global, cursor: &mut Cursor<'_>) -> Result<Nested, Stop>
    ensures { Gives nested cond cursor.old result cursor.new }
{
    let mut outer = Items::new(alloc);
    let mut level = empty_level(alloc);
    let mut depth = Depth {
        count: 0,
        deepest: 0,
    };
    'parts: loop {
        if cursor.eat_word(Keyword::Not) {
            depth.enter()?;
            level.nots += 1;
            continue;
        }
        if cursor.eat_sign(Sign::Open) {
            depth.enter()?;
            outer.push(level)?;
            level = empty_level(alloc);
            continue;
        }
        let part = read_test(alloc, cursor)?;
        match settle(alloc, cursor, &mut outer, level, &mut depth, part)? {
            Next::Part(next) => level = next,
            Next::Done(tree) => return Ok(made(alloc, depth, tree)),
        }
    }
}
