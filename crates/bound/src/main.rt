// bound RULE CERTIFICATE: reads an access structure and a certificate from two files, says what they hold, and prints
// the lower bound on the information ratio that they prove, or the refusal.
#![tactic(auto)]

ghost use Rattle.std.specs.Prelude.{Some};
ghost use Rattle.bound.specs.Answer.{answer_line};

use access::{AccessStructure, read_structure};
use anyhow::anyhow;
use certificate::Header;
use record::Refusal;
use std::process::ExitCode;
use std::{env, fmt, fs, io};
use verdict::{lower_bound, read_header};

// A coalition is printed as {1, 2}.
#[derive(Drop)]
struct Coalition(u8);

impl fmt::Display for Coalition {
    fn fmt<W: fmt::Write>(&self, f: &mut fmt::Formatter<W>) -> fmt::Result {
        f.debug_set()
            .entries((1u8..8).filter(|i| self.0 & (1u8 << *i) != 0))
            .finish()
    }
}

// An access structure is printed in two lines.
#[derive(Drop)]
struct Rule<'a>(&'a AccessStructure);

impl fmt::Display for Rule<'_> {
    fn fmt<W: fmt::Write>(&self, f: &mut fmt::Formatter<W>) -> fmt::Result {
        let participants = self.0.participants();
        writeln!(f, "access structure: {participants} participants")?;
        f.write_str("minimal qualified sets:")?;
        for set in (1u8..128)
            .map(|k| 2 * k)
            .filter(|set| self.0.is_minimal(*set))
        {
            write!(f, " {}", Coalition(set))?;
        }
        Ok(())
    }
}

// The head of a certificate is printed with the participants' weights alone.
#[derive(Drop)]
struct Head<'a>(&'a Header);

impl fmt::Display for Head<'_> {
    fn fmt<W: fmt::Write>(&self, f: &mut fmt::Formatter<W>) -> fmt::Result {
        let header = self.0;
        write!(f, "certificate: {} lines, weights", header.lines)?;
        for weight in header.weights.iter().take(usize::from(header.participants)) {
            write!(f, " {weight}")?;
        }
        write!(f, ", count {}", header.count)
    }
}

// The answer is printed in a line, whose text is proved.
#[derive(Drop)]
struct Answer(Result<(u32, u32), Refusal>);

impl fmt::Display for Answer {
    ghost output = { λ a. Some (answer_line a.0) };

    fn fmt<W: fmt::Write>(&self, f: &mut fmt::Formatter<W>) -> fmt::Result {
        match self.0 {
            Ok((count, total)) => write!(f, "ok {count}/{total}"),
            Err(refusal) => write!(f, "no {refusal}"),
        }
    }
}

// What the records hold, as far as they can be read.
fn print_records(rt: &HostRuntime, rule: &[u8], certificate: &[u8]) -> io::Result<()> {
    let Ok(structure) = read_structure(rule) else {
        return Ok(());
    };
    println!(rt; "{}", Rule(&structure))?;
    if let Ok(header) = read_header(&structure, certificate) {
        println!(rt; "{}", Head(&header))?;
    }
    Ok(())
}

// The two paths of the command line.
fn paths(rt: &HostRuntime) -> anyhow::Result<(String, String)> {
    let mut words = env::args(rt)?;
    let _program = words.next();
    match (words.next(), words.next(), words.next()) {
        (Some(rule), Some(certificate), None) => Ok((rule, certificate)),
        _ => {
            eprintln!(rt; "usage: bound RULE CERTIFICATE")?;
            Err(anyhow!("two files are wanted"))
        }
    }
}

fn contents(rt: &HostRuntime, path: &str) -> anyhow::Result<Vec<u8>> {
    match fs::read(rt, path) {
        Ok(bytes) => Ok(bytes),
        Err(fault) => {
            eprintln!(rt; "bound: cannot read {path}: {fault}")?;
            Err(fault.into())
        }
    }
}

fn run(rt: &HostRuntime) -> anyhow::Result<()> {
    let (rule_path, certificate_path) = paths(rt)?;
    let rule = contents(rt, rule_path.as_str())?;
    let certificate = contents(rt, certificate_path.as_str())?;
    print_records(rt, rule.as_slice(), certificate.as_slice())?;
    let answer = lower_bound(rule.as_slice(), certificate.as_slice());
    println!(rt; "{}", Answer(answer))?;
    Ok(())
}

// What is wrong with the arguments or the files has been said where it was found.
fn main(rt: HostRuntime) -> ExitCode {
    match run(&rt) {
        Ok(()) => ExitCode::SUCCESS,
        Err(_) => ExitCode::FAILURE,
    }
}
