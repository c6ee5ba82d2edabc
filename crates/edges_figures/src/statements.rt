// A crew's statement, asked for and shown. It is asked for by value, which is all of the entry point but for copying the lines into lent
// ones.
use format::Line;

fn parts(lines: [Line; 8]) {
    for line in &lines {
        script::tell(b" ", line.part as usize);
    }
}

// The statement of a crew for a caller who lends so many lines, from these bytes: the answer, the totals and the part of each user.
pub fn statement(image: &[u8], group: u64, lent: u64) {
    let report = match figures::report_of(image, group, lent as usize) {
        Ok(report) => report,
        Err(refusal) => figures::refused(refusal.number()),
    };
    let totals = report.totals;
    let lines = report.lines;
    script::tell(b" -> ", totals.answer as usize);
    script::tell(b", members ", totals.members as usize);
    script::tell(b" costs ", totals.expenses as usize);
    script::tell(b" gifts ", totals.gifts as usize);
    script::say(b" parts");
    parts(lines);
}
