/// What `--help` prints.
pub const HELP: &str = "\
acra_lab: serves one session of a PostgreSQL client over a backend in memory, to try the suite.

Usage: acra_lab session CLIENT SEED
       acra_lab --help | --version

  CLIENT   the client's name: 1 to 64 of the bytes a to z, 0 to 9 and _
  SEED     what keys and nonces are drawn from: 1 to 20 decimal digits of a number below 2^64

Nothing is secret here: keys and nonces are drawn from the seed, which stands on the command line.

It reads and writes no file. The client's bytes are read from standard input, and the replies are
written to standard output, and nothing else. How the session ended stands on standard error, where
the status isn't 0. The backend's one table, notes (id, body), is empty at the beginning, and gone
at the end.

Exit status:
  0  Done         the input ended at a message's end, or the client ended the session
  1  Usage        the words are none of these, or a word isn't UTF-8
  3  BadClient    a message of the client is none, or may not stand where it stands
     ClientCut    the input ended inside a message
  4  ReadFault    reading the input failed
  5  WriteFault   writing the output failed
  6  NoMemory     there was no memory
  8  Spent        2^48 bytes of the input were read

Example:
  acra_lab session app 1 <requests >replies
";
