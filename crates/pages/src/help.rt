// What the program is for, in a few lines.
use desk::say;
use desk::say::text_on;

const USAGE: &[u8] = b"usage: pages [--chunks] IMAGE MAGIC H [PAGE]\n";

const PURPOSE: &[u8] =
    b"Says of each page of a flash image what a new reader finds there: the higher header, the chunks and their bytes,
and where the page ends or is refused. --chunks lists each page's chunks: where, how long, whether the sum is right.
IMAGE is a file, or - for standard input: up to 256 pages of 4096 bytes. MAGIC is one to eight hex digits, as a1,
A1 or 0xA1. H is the length of the higher header, a multiple of 4 up to 64. With PAGE it prints the bytes of that page.
A refused page has its refusal in its own line. An image or an H that is refused is said on standard error, and the
list is then one line that starts with \\refused. \\failed stands in place of a list that could not be made, and why is
said on standard error. A script has to look for these lines: the exit status is 0 either way.
The bytes of a page are printed alone: there a refusal is said on standard error only.
";

pub(crate) fn usage_on(to: &impl Print) {
    text_on(to, USAGE);
}

pub(crate) fn say(rt: &HostRuntime) {
    usage_on(rt);
    if let Err(why) = rt.write_all(PURPOSE) {
        say::output_failed(rt, b"pages", &why);
    }
}
