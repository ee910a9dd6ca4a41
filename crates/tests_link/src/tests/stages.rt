// What is shown of a unit's functions, stage by stage.

use cc_link::{Mode, compile, typed_unit};
use cc_rv32::listing::list;
use cc_stages::{StagesFault, stages};
use std::alloc::{AllocError, Global};
use std::test::Fail;
use tests_texts::programs::{CRC, FIB, GCD, MATMUL, NEST, REGS, SIEVE, SORT};
use tests_texts::verdict::{each_passes, passes};
use tests_texts::worked::LONG;

/// A function with each form of step.
const FORMS: &str =
    "unsigned char c[2];int a[3];int f(int n,int k){do n=n+1;while(n>=k);do a[n&1]=c[1];while(n<=0);c[0]=a[2];c[0]=c[k-8];a[k-7]=n;if(n<k)return n<<3;return -n;}int main(void){write_word(f(read_word(),9));}";

static PROGRAMS: [&str; 10] = [LONG, FORMS, CRC, FIB, GCD, MATMUL, NEST, REGS, SIEVE, SORT];

// What is written about the functions of a text, and the number of the fault, or 0 if there is none.
#[derive(Drop)]
struct Written {
    text: Vec<u8>,
    number: u32,
}

fn shown(alloc: Global, text: &[u8]) -> Result<Written, Fail> {
    let unit = typed_unit(alloc, text)?;
    let mut written = Vec::new(alloc);
    let number = match stages(alloc, Mode::Plain, &unit, None, &mut written) {
        Ok(()) => 0,
        Err(fault) => {
            let number = fault.number();
            drop(fault);
            number
        }
    };
    drop(unit);
    Ok(Written {
        text: written,
        number,
    })
}

// Adds a text after another.
fn add(text: &mut Vec<u8>, part: &str) -> Result<(), AllocError> {
    text.extend_from_slice(part.as_bytes())
}

// The labels of a stage: those that its code leads to, and those that its lines begin with.
#[derive(Drop)]
struct Labels {
    named: Vec<u32>,
    standing: Vec<u32>,
}

impl Labels {
    fn new(alloc: Global) -> Labels {
        Labels {
            named: Vec::new(alloc),
            standing: Vec::new(alloc),
        }
    }

    // Adds the labels of a text that lists labels.
    fn add_named(&mut self, list: &str) -> Result<(), Fail> {
        for label in list.split(", ") {
            self.named.push(label.parse::<u32>()?)?;
        }
        Ok(())
    }

    // Adds the labels of a line.
    fn add_line(&mut self, line: &str) -> Result<(), Fail> {
        if let Some((label, _)) = line.split_once(':') {
            self.standing.push(label.parse::<u32>()?)?;
        }
        if let Some((_, list)) = line.split_once(" -> ") {
            self.add_named(list)?;
        }
        if let Some(label) = line.trim().strip_prefix("jump ") {
            self.add_named(label)?;
        }
        Ok(())
    }

    // Whether each label that the code leads to begins some line.
    fn all_stand(&self) -> bool {
        self.named.iter().all(|label| self.standing.contains(label))
    }
}

// How many stages a text has, and how many of them lack a label that their code leads to.
fn stages_lacking_labels(alloc: Global, text: &str) -> Result<(usize, usize), Fail> {
    let (mut count, mut lacking) = (0usize, 0usize);
    let mut labels = Labels::new(alloc);
    for line in text.lines() {
        if line.starts_with("== ") {
            count = count.saturating_add(1);
            lacking = lacking.saturating_add(usize::from(!labels.all_stand()));
            labels = Labels::new(alloc);
        } else {
            labels.add_line(line)?;
        }
    }
    lacking = lacking.saturating_add(usize::from(!labels.all_stand()));
    drop(labels);
    Ok((count, lacking))
}

fn all_labels_stand(alloc: Global, program: &&'static str) -> Result<bool, Fail> {
    let found = shown(alloc, program.as_bytes())?;
    let text = str::from_utf8(found.text.as_slice())?;
    let (count, lacking) = stages_lacking_labels(alloc, text)?;
    drop(found);
    Ok(count >= 7 && count % 7 == 0 && lacking == 0)
}

#[test]
fn labels_stand(rt: HostRuntime) -> Result<(), Fail> {
    each_passes(rt.alloc(), PROGRAMS.as_slice(), all_labels_stand)
}

// The lines of code in the stages of a text.
fn code_lines(alloc: Global, text: &str) -> Result<Vec<u8>, AllocError> {
    let mut lines = Vec::new(alloc);
    let mut is_code = false;
    for line in text.lines() {
        if line.starts_with("== ") {
            is_code = line.ends_with(": code");
        } else if is_code {
            add(&mut lines, line)?;
            add(&mut lines, "\n")?;
        }
    }
    Ok(lines)
}

// A listing after its first three lines, which are the start code.
fn behind_start(listing: &[u8]) -> &[u8] {
    let mut left = 3u32;
    for at in 0..listing.len() {
        if left == 0 {
            return &listing[at..];
        }
        if listing[at] == b'\n' {
            left -= 1;
        }
    }
    b""
}

// Whether the code in the stages of a program is the same as the listing of its image.
fn code_is_listing(alloc: Global, program: &&'static str) -> Result<bool, Fail> {
    let found = shown(alloc, program.as_bytes())?;
    let lines = code_lines(alloc, str::from_utf8(found.text.as_slice())?)?;
    let unit = compile(alloc, program.as_bytes())?;
    let listing = list(alloc, &unit.stored().image)?;
    let same = lines.as_slice() == behind_start(listing.as_slice());
    let right = found.number == 0 && !lines.is_empty() && same;
    drop(found);
    drop(lines);
    drop(unit);
    drop(listing);
    Ok(right)
}

#[test]
fn all_code_is_the_listing(rt: HostRuntime) -> Result<(), Fail> {
    each_passes(rt.alloc(), PROGRAMS.as_slice(), code_is_listing)
}

#[test]
fn a_writer_that_fails(rt: HostRuntime) -> Result<(), Fail> {
    let unit = typed_unit(rt.alloc(), FORMS.as_bytes())?;
    let mut room = [0u8; 300];
    let mut writer = room.as_mut_slice();
    let told = stages(rt.alloc(), Mode::Plain, &unit, None, &mut writer);
    let right = matches!(told, Err(StagesFault::Write));
    drop(told);
    drop(unit);
    passes(Ok(right))
}
