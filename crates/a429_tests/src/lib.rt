//! Rows of known answers, worked out by hand: words, profiles, recordings, link data units, links, certificates and the search.
#![tactic(auto)]

#[cfg(test)]
mod agreement;
#[cfg(test)]
mod anywhere;
#[cfg(test)]
mod callers;
#[cfg(test)]
mod calls;
#[cfg(test)]
mod cert;
#[cfg(test)]
mod cutting;
#[cfg(test)]
mod import;
#[cfg(test)]
mod ldu;
#[cfg(test)]
mod link;
#[cfg(test)]
mod merge;
#[cfg(test)]
mod parts;
#[cfg(test)]
mod profile;
#[cfg(test)]
mod record;
#[cfg(test)]
mod recordings;
#[cfg(test)]
mod sample;
#[cfg(test)]
mod side;
#[cfg(test)]
mod sink;
#[cfg(test)]
mod word;
