//! Tests of the public interfaces of the libraries that read, show and explain encodings, and of those that decode texts.
#![tactic(auto)]

#[cfg(test)]
mod cut;
#[cfg(test)]
mod expect;
#[cfg(test)]
mod forms;
#[cfg(test)]
mod head;
#[cfg(test)]
mod inputs;
#[cfg(test)]
mod io;
#[cfg(test)]
mod mend;
#[cfg(test)]
mod names;
#[cfg(test)]
mod open;
#[cfg(test)]
mod run;
#[cfg(test)]
mod show;
#[cfg(test)]
mod text;
#[cfg(test)]
mod value;
#[cfg(test)]
mod view;
#[cfg(test)]
mod walk;
#[cfg(test)]
mod why;
