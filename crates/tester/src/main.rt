// The tester's program: `watch` tells what each call of a file does, `given` does the same from a block given with other
// own eras, `sweep` plays every placement of a scenario, `trapped` does the same where own eras start at 0. Calls come
// from standard input, numbers go to standard output.
#![tactic(auto)]

mod acts;
mod agree;
mod choices;
mod doing;
mod endings;
mod ledger;
mod placement;
mod print;
mod run;
mod scene;
mod sum;
mod sweep;
mod watch;
mod words;

use numbers::Era;
use scene::Scene;
use std::env::Env;
use std::io;

fn main(rt: HostRuntime) -> io::Result<()> {
    let mut word = [0u8; 4096];
    let n = rt.arg(1, &mut word).unwrap_or(0);
    let mut input = rt.stdin();
    // The first byte alone decides, as it always did: `args` would give whole words, and refuse one that is not UTF-8.
    match &word[..n] {
        [] => println!(rt; "usage: tester watch | given | sweep | trapped"),
        [b'w', ..] => watch::watch(&rt, &mut input, Scene::fresh()),
        [b'g', ..] => watch::watch_given(&rt, &mut input),
        [b's', ..] => sweep::sweep(&rt, &mut input, Scene::fresh()),
        [b't', ..] => sweep::sweep(&rt, &mut input, Scene::given(Era(0))),
        _ => Ok(()),
    }
}
