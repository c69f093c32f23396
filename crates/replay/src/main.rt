// Replays a recorded trunk: a file of records of four octets, and a line for each report, behind the number of the record that caused it.
#![tactic(auto)]

mod player;
mod tape;

use listening::wish::{self, Wish};

fn usage(rt: &impl Eprint) {
    wish::say(
        rt,
        "usage: replay [--later] FILE    a line for each report, behind the number of the record that caused it\nFILE holds records of four octets: kind (0 octet, 1 silence, 2 forget), value, two zeros.\n",
    );
    wish::later(rt);
}

fn main(rt: HostRuntime) {
    let Some(
        Wish {
            csv: false,
            octets: false,
            edition,
            file: Some(file),
        },
    ) = wish::read(&rt)
    else {
        return usage(&rt);
    };
    if let Some(mut f) = wish::open(&rt, file) {
        tape::replay(&rt, edition, &mut f);
    }
}
