// Known hosts: how long a question takes beside many of them.
use crate::words::{count_in, numbered};
use book_hosts::{HstsList, Sts};
use rows_shell::{Failed, Row};
use std::alloc::Global;
use value_bytes::BytesList;

/// What each host says.
const STS: Sts = Sts {
    age: 31_536_000,
    subdomains: true,
};

// A list of so many hosts.
fn list_of(alloc: Global, hosts: u32) -> Result<HstsList, Failed> {
    let mut list = HstsList::new(alloc);
    for host in 0..hosts {
        list.note(numbered(alloc, b"www.h", host, b".test")?, STS, 0)?;
    }
    Ok(list)
}

// 64 of the hosts, and 64 names that are not known, by turns.
fn names_of(alloc: Global, hosts: u32) -> Result<BytesList, Failed> {
    let mut names = BytesList::new(alloc);
    for asked in 0..64u32 {
        let host = (hosts / 64).saturating_mul(asked);
        names.push(numbered(alloc, b"www.h", host, b".test")?)?;
        names.push(numbered(alloc, b"api.h", host, b".test")?)?;
    }
    Ok(names)
}

// How many of the names are known, asked in so many rounds.
fn asked(list: &HstsList, names: &BytesList, rounds: u32) -> u64 {
    let mut known = 0u64;
    for _ in 0..rounds {
        for index in 0..names.len() {
            if list.is_known(names.at(index), 1) {
                known = known.saturating_add(1);
            }
        }
    }
    known
}

/// Fills a list with so many known hosts, asks it for 64 of them and for a name beside each in so many rounds, and
/// counts how often the answer was yes.
pub(crate) fn known(alloc: Global, words: &Row) -> Result<u64, Failed> {
    let hosts = count_in(words, 1)?;
    let rounds = count_in(words, 2)?;
    let names = names_of(alloc, hosts)?;
    Ok(asked(&list_of(alloc, hosts)?, &names, rounds))
}
