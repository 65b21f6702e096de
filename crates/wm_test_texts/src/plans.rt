// What plans.txt asks:
//
// > plan WORD|WORD|..|     what the words of a command line are read as, each of which ends with `|`
//
// `bench/words.py` writes the file.
use crate::asked;
use anyhow::{Context, Result};
use std::alloc::Global;
use std::str;
use wm_cases::{Subject, bytes_of};
use wm_plan::{Addr, DrillPlan, Plan, RunPlan, ServePlan, WordFault, read_words};

/// The words of the command line.
#[derive(Drop)]
pub struct PlanCases {
    alloc: Global,
}

impl PlanCases {
    pub fn new(alloc: Global) -> PlanCases {
        PlanCases { alloc }
    }
}

// The words that a question has: each ends with `|`, so nothing stands behind the last one.
fn words_of(alloc: Global, text: &str) -> Result<Vec<String>> {
    let parts: Vec<&str> = text.split('|').collect(alloc)?;
    let mut words = Vec::new(alloc);
    for part in &parts[..parts.len().saturating_sub(1)] {
        let bytes = bytes_of(alloc, part)?;
        words.push(String::from_str(alloc, str::from_utf8(&bytes)?)?)?;
    }
    Ok(words)
}

fn run(plan: &RunPlan, answer: &mut String) -> Result<()> {
    let store = plan.store.as_str();
    let offset = plan.offset.minutes();
    writeln!(
        answer,
        "run store {store} ctl {} user {} offset {offset} log-limit {}",
        plan.ctl, plan.user, plan.log_limit
    )?;
    Ok(())
}

fn addr(addr: Addr) -> &'static str {
    match addr {
        Addr::Ip => "127.0.0.1",
        Addr::Localhost => "localhost",
    }
}

fn serve(plan: &ServePlan, answer: &mut String) -> Result<()> {
    let (addr, port) = (addr(plan.listen.addr), plan.listen.port);
    let (workers, monitors) = (plan.workers, plan.monitors);
    write!(
        answer,
        "serve listen {addr}:{port} workers {workers} monitors {monitors} "
    )?;
    let store = plan.store.as_str();
    let offset = plan.offset.minutes();
    writeln!(
        answer,
        "store {store} ctl {} offset {offset} log-limit {}",
        plan.ctl, plan.log_limit
    )?;
    Ok(())
}

fn drill(plan: &DrillPlan, answer: &mut String) -> Result<()> {
    writeln!(answer, "drill seed {} jobs {}", plan.seed, plan.jobs)?;
    Ok(())
}

fn plan(alloc: Global, text: &str, answer: &mut String) -> Result<()> {
    let words = words_of(alloc, text)?;
    match read_words(alloc, &words) {
        Ok(Plan::Run(plan)) => run(&plan, answer),
        Ok(Plan::Serve(plan)) => serve(&plan, answer),
        Ok(Plan::Drill(plan)) => drill(&plan, answer),
        Err(WordFault::Bad) => {
            writeln!(answer, "bad")?;
            Ok(())
        }
        Err(WordFault::NoMemory) => {
            writeln!(answer, "no memory")?;
            Ok(())
        }
    }
}

impl Subject for PlanCases {
    fn begin(&mut self) -> Result<()> {
        Ok(())
    }

    fn answer(&mut self, question: &str, answer: &mut String) -> Result<()> {
        let (asked, text) = asked::parts(question);
        match asked {
            "plan" => plan(self.alloc, text, answer),
            _ => asked::unknown(asked),
        }
    }
}
