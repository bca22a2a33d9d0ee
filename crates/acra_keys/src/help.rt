/// What `--help` prints.
pub const HELP: &str = "\
acra_keys: keeps the keys of clients, sealed in a file under a master key.

Usage: acra_keys DIR generate ID
       acra_keys DIR list
       acra_keys DIR destroy ID KEY
       acra_keys DIR check
       acra_keys --help | --version

  DIR        the folder of the files master, which is read, and keystore, which is read and, where
             the ring changes, replaced by way of keystore.new; no other file is written
  generate   add the client ID with its first key, and print: ID KEY; a missing or empty keystore is
             begun
  list       print a line for each key: ID KEY PHASE, where PHASE is current, draining or swept
  destroy    remove the swept key KEY of ID, and print: destroyed ID KEY
  check      print: clients N keys N
  ID         a client's name: 1 to 64 of the bytes a to z, 0 to 9 and _
  KEY        a key's number: 1 to 20 decimal digits of a number below 2^64

master holds the master key: 64 hexadecimal digits, and maybe a newline. No key is printed.
How the run ended stands on standard error, where the status isn't 0.

Exit status:
  0  Done          what was asked is done
  1  Usage         the words are none of these, or a word isn't UTF-8
  2  BadMaster     master is not 64 hexadecimal digits
     RingRefused   keystore is too long, or no ring under this master key
  3  Refused       it can't be done; printed: refused exists, too-many, no-such-key or not-swept
  4  ReadFault     master is missing, or reading a file failed
  5  WriteFault    writing the output failed; the ring is kept
  6  NoMemory      there was no memory; nothing is kept
  7  KeeperFault   writing keystore failed
  8  RandomFault   drawing random bytes failed; nothing is kept

Example:
  acra_keys /var/lib/acra generate app
";
