// A tour of the thin layer, as a caller uses it: an allocator that is lent to each call, and a reader that holds its run.

#![tactic(auto)]

mod pages;
mod records;
mod say;

fn main(rt: HostRuntime) {
    pages::tour(&rt);
    // a=1, b deleted, c=23, and then two bytes that are no record.
    records::tour(
        &rt,
        b"HV\x00\x01\x01\x00a1HV\x01\x01\x00\x00bHV\x00\x01\x02\x00c23HV",
    );
}
