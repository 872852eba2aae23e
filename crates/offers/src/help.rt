// What the program is for, in a few lines.
use desk::say;
use desk::say::text_on;

const USAGE: &[u8] =
    b"usage: offers [--from KEY] [--after KEY] [--to KEY] [--before KEY] [--count] [--why] [--utf8] RUN..\n";

const PURPOSE: &[u8] =
    b"Merges up to 17 files, oldest first, each a run of records, and prints the live entries in key order,
one a line: key, tab, value. Bytes outside printable ASCII are \\xNN and a backslash is \\\\, in KEY too.
RUN is a file, or - for standard input; all together have up to 1114112 bytes.
--from and --to take KEY in, --after and --before leave it out; --count prints only how many there are.
--why adds a tab and the run that decided; --utf8 prints well-formed UTF-8 above U+009F as it is.
What was refused or could not be read is said on standard error. A list that was refused ends in a line
that starts with \\refused, and \\failed stands in place of one that could not be made. No entry's line
starts so. A script has to look for these lines: the exit status is 0 either way.
";

pub(crate) fn usage_on(to: &impl Print) {
    text_on(to, USAGE);
}

pub(crate) fn say(rt: &HostRuntime) {
    usage_on(rt);
    if let Err(why) = rt.write_all(PURPOSE) {
        say::output_failed(rt, b"offers", &why);
    }
}
