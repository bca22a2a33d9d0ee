use super::*;

const SELECTS: [(&str, u32); 37] = [
    ("SELEC 1", 0),
    ("(select a from t)", 0),
    (";;", 1),
    ("/* a */ */", 8),
    ("select", 6),
    ("select ", 7),
    ("select from t", 7),
    ("select 1", 7),
    ("select a", 8),
    ("select a--x\rfrom t", 18),
    ("select a,", 9),
    ("select a, from t", 10),
    ("select a b from t", 9),
    ("select a as from t", 12),
    ("select distinct a from t", 16),
    ("select a, count(*) from t", 15),
    ("select count(a) from t", 13),
    ("select count(*), a from t", 15),
    ("select \"count\"(*) from t", 14),
    ("select substr(a, 1, 33) from t", 13),
    ("select * , a from t", 9),
    ("select t.* from t", 9),
    ("select a.b.c from a", 10),
    ("select a from", 13),
    ("select a from t u", 16),
    ("select a from t, u", 15),
    ("select a from s.t", 15),
    ("select a from t group by a", 16),
    ("select a from t limit -1", 22),
    ("select a from t limit 9223372036854775808", 22),
    ("select a from t limit 1a", 23),
    ("select a from t order a", 22),
    ("select a from t order by 1", 25),
    ("select a from t order by a desc asc", 32),
    ("select a from t limit 1 where a = 1", 24),
    ("select a from t offset 1 limit 1", 25),
    ("select a from t; select b from t", 17),
];

#[test]
fn selects(rt: HostRuntime) {
    are_refused(&rt, rt.alloc(), SqlKind::Syntax, &SELECTS);
}

const CHANGES: [(&str, u32); 34] = [
    ("insert t values (1)", 7),
    ("insert into t", 13),
    ("insert into t () values (1)", 15),
    ("insert into t (a.b) values (1)", 16),
    ("insert into t (a) select a from t", 18),
    ("insert into t values 1", 21),
    ("insert into t values ()", 22),
    ("insert into t values (a)", 22),
    ("insert into t values (1", 23),
    ("insert into t values (1,)", 24),
    ("insert into t values (1) (2)", 25),
    ("insert into t values (1), ", 26),
    ("insert into t values (1) returning a", 25),
    ("update t", 8),
    ("update t set", 12),
    ("update t set a", 14),
    ("update t set t.a = 1", 14),
    ("update t set a <> 1", 15),
    ("update t set a = b", 17),
    ("update t set a = 1,", 19),
    ("update t set a = 1 from u", 19),
    ("delete t", 7),
    ("delete from", 11),
    ("delete from t limit 1", 14),
    ("set", 3),
    ("set ;", 4),
    ("set 5", 4),
    ("set 'application_name' = 'x'", 4),
    ("set application_name", 20),
    ("set application_name 'x'", 21),
    ("set application_name = null", 23),
    ("set application_name to $1", 24),
    ("set application_name = -'x'", 24),
    ("set application_name = 'a', 'b'", 26),
];

#[test]
fn changes(rt: HostRuntime) {
    are_refused(&rt, rt.alloc(), SqlKind::Syntax, &CHANGES);
}

// Texts of the grammar that break a side condition: the place is their length.
const CONDITIONS: [(&str, u32); 10] = [
    ("select b.a from t", 17),
    ("select a from t order by u.a", 28),
    ("select a from t where \"T\".a = 1", 31),
    ("select a from t where a = u.b", 29),
    ("update t set a = 1 where u.a = 1", 32),
    ("delete from t where substr(u.a, 1, 33) = ''", 43),
    ("select a from t where a = $2", 28),
    ("select a from t where a = $1 or a = $3", 38),
    ("insert into t values ($20480)", 29),
    ("update t set a = $1, b = $3", 27),
];

#[test]
fn side_conditions(rt: HostRuntime) {
    are_refused(&rt, rt.alloc(), SqlKind::Syntax, &CONDITIONS);
}
