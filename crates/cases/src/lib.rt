// Worked cases: one list that is proved, and tests that are run.
#![tactic(auto)]

ghost use Rattle.cases.specs.Cases.{CasesHold};

#[cfg(test)]
mod certificates;
#[cfg(test)]
mod fields;
#[cfg(test)]
mod ranks;
#[cfg(test)]
mod records;
#[cfg(test)]
mod structures;

// Every case of the list holds of the definitions that the contracts cite.
pub fn cases_hold()
    ensures { CasesHold }
{}
