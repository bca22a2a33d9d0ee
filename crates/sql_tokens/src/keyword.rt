ghost use Rattle.std.specs.Prelude.{◌≡◌};
ghost use Rattle.sql_tokens.specs.Keywords.{keyword_of};

/// The reserved words.
#[derive(Clone, Copy, Debug, PartialEq, Eq)]
pub enum Keyword {
    Select,
    From,
    Where,
    And,
    Or,
    Not,
    In,
    Is,
    Null,
    Order,
    By,
    Asc,
    Desc,
    Limit,
    Offset,
    Insert,
    Into,
    Values,
    Update,
    Set,
    Delete,
    As,
    To,
}

/// The reserved word that is written so, in lower case.
pub(crate) fn reserved_word(word: &[u8]) -> Option<Keyword>
    ensures { result ≡ keyword_of word.now }
{
    if word == b"select".as_slice() {
        return Some(Keyword::Select);
    }
    if word == b"from".as_slice() {
        return Some(Keyword::From);
    }
    if word == b"where".as_slice() {
        return Some(Keyword::Where);
    }
    if word == b"and".as_slice() {
        return Some(Keyword::And);
    }
    if word == b"or".as_slice() {
        return Some(Keyword::Or);
    }
    if word == b"not".as_slice() {
        return Some(Keyword::Not);
    }
    if word == b"in".as_slice() {
        return Some(Keyword::In);
    }
    if word == b"is".as_slice() {
        return Some(Keyword::Is);
    }
    if word == b"null".as_slice() {
        return Some(Keyword::Null);
    }
    if word == b"order".as_slice() {
        return Some(Keyword::Order);
    }
    if word == b"by".as_slice() {
        return Some(Keyword::By);
    }
    if word == b"asc".as_slice() {
        return Some(Keyword::Asc);
    }
    if word == b"desc".as_slice() {
        return Some(Keyword::Desc);
    }
    if word == b"limit".as_slice() {
        return Some(Keyword::Limit);
    }
    if word == b"offset".as_slice() {
        return Some(Keyword::Offset);
    }
    if word == b"insert".as_slice() {
        return Some(Keyword::Insert);
    }
    if word == b"into".as_slice() {
        return Some(Keyword::Into);
    }
    if word == b"values".as_slice() {
        return Some(Keyword::Values);
    }
    if word == b"update".as_slice() {
        return Some(Keyword::Update);
    }
    if word == b"set".as_slice() {
        return Some(Keyword::Set);
    }
    if word == b"delete".as_slice() {
        return Some(Keyword::Delete);
    }
    if word == b"as".as_slice() {
        return Some(Keyword::As);
    }
    if word == b"to".as_slice() {
        return Some(Keyword::To);
    }
    None
}
