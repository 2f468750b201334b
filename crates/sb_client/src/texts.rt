/// What `sbupdate` prints where the words are no command line.
pub const UPDATE_USAGE: &str = "usage: sbupdate COMMAND

  sbupdate replay LIST...
      replays recorded response bodies of standard input, one a line, and prints the lists that
      result
  sbupdate run --store PATH --server HOST:PORT [--rounds N] [--key KEY]
      [--max-update N] [--max-database N] [--raw-only] [--no-digest] LIST...
      asks a server for updates of lists, and keeps the lists in a store
  sbupdate --help | -h | --version
      prints this text, or the version
";

/// What `sbcheck` prints where the words are no command line.
pub const CHECK_USAGE: &str = "usage: sbcheck COMMAND

  sbcheck judge --store PATH --server HOST:PORT
      [--update N] [--workers N] [--patience SECONDS] [--key KEY]
      [--max-update N] [--max-database N] [--raw-only] [--no-digest] LIST...
      judges the URLs of standard input, one a line, by the lists of a store, which may be updated
      meanwhile
  sbcheck show
      prints the canonical form of the URLs of standard input, one a line, and their expressions
      with the hash of each
  sbcheck vectors
      prints how many of the published examples are met
  sbcheck --help | -h | --version
      prints this text, or the version
";
