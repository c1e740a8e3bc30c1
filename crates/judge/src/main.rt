//! Reads a recording as text from standard input, tells it, judges it, and prints what came of it.
#![tactic(auto)]

mod evidence;
mod inquiry;
mod request;
mod step;

use anyhow::bail;
use console::{Unreadable, print_answer, print_operations, print_words};
use inquiry::Inquiry;
use recording::Recording;
use request::{Chosen, Request};
use std::env;
use std::rt::Env;
use step::{NoStep, Steps};
use visibility::Causal;
use words::tell;

// Keeps what one line says, tells the recording, and prints what is answered.
fn tell_line(
    rt: &(impl Print + AllocGlobal),
    recording: &mut Recording,
    steps: &mut Steps,
    number: u64,
    text: &str,
) -> anyhow::Result<()> {
    match steps.keep(rt.alloc(), text) {
        Ok(None) => {}
        Ok(Some(step)) => {
            let answer = tell(recording, steps.call(step));
            print_answer(rt, number, step.shown(text), answer)?;
        }
        Err(NoStep::Unreadable(unreadable)) => println!(rt; "line {number}: {unreadable}")?,
        Err(NoStep::OutOfMemory(error)) => return Err(error.into()),
    }
    Ok(())
}

fn run(rt: &(impl Env + Input + Print + AllocGlobal)) -> anyhow::Result<()> {
    let request = match Request::read(env::args(rt)?) {
        Ok(request) => request,
        Err(unusable) => {
            println!(rt; "{unusable}")?;
            bail!("the arguments cannot be used");
        }
    };
    let mut recording = Recording::unstarted();
    let mut steps = Steps::new(rt.alloc());
    // The loop stands in both programs: a function round it would take a closure that prints, keeps and fails in each one's way.
    for (number, text) in (1..=u64::MAX).zip(rt.lines(rt.alloc())) {
        match text {
            Ok(text) => tell_line(rt, &mut recording, &mut steps, number, text.as_str())?,
            Err(_) => println!(rt; "line {number}: {Unreadable}")?,
        }
    }
    print_operations(rt, &recording)?;
    let calls = steps.calls(rt.alloc())?;
    // Not one call with an `impl Rule for Chosen`: its calls and its law would be these three cases again, each for itself.
    match request.rule {
        Chosen::Causal => Inquiry::new(&recording, &calls, &Causal).answer(rt, &request)?,
        Chosen::Late(late) => Inquiry::new(&recording, &calls, &late).answer(rt, &request)?,
        Chosen::Terms(terms) => Inquiry::new(&recording, &calls, &terms).answer(rt, &request)?,
    }
    print_words(rt, &recording)?;
    Ok(())
}

fn main(rt: HostRuntime) -> anyhow::Result<()> {
    run(&rt)
}
