/// What `--help` prints.
pub const HELP: &str = "\
acra_audit: verifies the audit log of a folder.

Usage: acra_audit DIR
       acra_audit --help | --version

  DIR   the folder of these three files, which are read; nothing is written
        master     the master key: 64 hexadecimal digits, and maybe a newline
        keystore   the ring, sealed under the master key, which holds the log's key; at most 2^24 bytes
        audit      the log

One line on standard output says what the log is:
  valid N open     each of its N lines recomputes
  valid N closed   the same, and the last line closes the log
  broken N         line N is the first that doesn't recompute
  long N           more than 512 bytes without a newline stand where line N begins
How the run ended stands on standard error, where the status isn't 0.

Exit status:
  0  Done          the log is valid
  1  Usage         the words are not one folder, or the word isn't UTF-8
  2  BadMaster     master is not 64 hexadecimal digits
     RingRefused   keystore is too long, or no ring under this master key
  3  Broken        a line doesn't recompute
     LineTooLong   a line is longer than 512 bytes
  4  ReadFault     a file is missing, or reading it failed
  5  WriteFault    writing the output failed
  6  NoMemory      there was no memory
  8  Spent         2^48 bytes of the log were read

Example:
  acra_audit /var/lib/acra
";
