//! Checkpoints with a byte that is another, that are cut, and that are of another policy.
use crate::codecs::codecs_of;
use crate::small::{LaidOut, SMALL_EVENTS, SMALL_POLICY, small};
use lnfs_format::Codecs;
use lnfs_test_checkpoint_support::judged::comes_to;
use lnfs_test_checkpoint_support::served::{checkpoint_after, events_of};
use lnfs_test_support::flaw::{Flaw, demand, read_of};
use lnfs_test_support::rows::{cells_of, counted_rows};
use lnfs_test_support::site::POLICY;
use std::alloc::{AllocError, Global};

/// In each table a name; the first and the last of some bytes of the small checkpoint; and what becomes of it where the lowest
/// bit of one of these is another, and where the highest is. A length or a count that is another gives the bytes behind it
/// another meaning, so that an item further on is none.
///
/// The name of the layout, the policy's digest, the number of events, and the last numbers.
const HEAD: &str = "
the name | 0 7 | damaged 0 | damaged 0
the digest | 8 39 | policy | policy
events | 40 40 | taken | damaged 40
events | 41 47 | taken | taken
last client | 48 51 | unfit | unfit
last client | 52 54 | taken | taken
last client | 55 55 | unfit | taken
last session | 56 59 | unfit | unfit
last session | 60 62 | taken | taken
last session | 63 63 | unfit | taken
last context | 64 67 | unfit | unfit
last context | 68 70 | taken | taken
last context | 71 71 | unfit | taken
last node | 72 75 | unfit | unfit
last node | 76 79 | taken | taken
last open | 80 83 | unfit | unfit
last open | 84 86 | taken | taken
last open | 87 87 | unfit | taken
last lock | 88 91 | unfit | unfit
last lock | 92 94 | taken | taken
last lock | 95 95 | unfit | taken
";

/// The client.
const CLIENT: &str = "
clients | 96 102 | damaged 396 | damaged 396
clients | 103 103 | damaged 1164 | damaged 396
client: level | 104 107 | unfit | unfit
client: number | 108 115 | unfit | unfit
client: owner's length | 116 121 | damaged 124 | damaged 124
client: owner's length | 122 122 | damaged 396 | damaged 124
client: owner's length | 123 123 | damaged 220 | damaged 267
client: owner | 124 125 | taken | taken
client: verifier | 126 133 | taken | taken
client: confirmed | 134 134 | unfit | damaged 134
client: sequence | 135 138 | taken | taken
client: kept | 139 139 | damaged 226 | damaged 139
client: arguments' length | 140 145 | damaged 148 | damaged 148
client: arguments' length | 146 146 | damaged 638 | damaged 148
client: arguments' length | 147 147 | damaged 253 | damaged 519
client: arguments | 148 243 | taken | taken
client: reply's length | 244 249 | damaged 252 | damaged 252
client: reply's length | 250 250 | damaged 690 | damaged 252
client: reply's length | 251 251 | damaged 430 | damaged 619
client: reply | 252 351 | taken | taken
client: reclaimed | 352 352 | taken | damaged 352
client: seen | 353 353 | damaged 494 | damaged 353
client: seconds | 354 361 | taken | taken
";

/// The session.
const SESSION: &str = "
sessions | 362 368 | damaged 921 | damaged 921
sessions | 369 369 | damaged 398 | damaged 921
session: level | 370 373 | unfit | unfit
session: number | 374 381 | unfit | unfit
session: client | 382 389 | unfit | unfit
session: request | 390 391 | unfit | unfit
session: request | 392 393 | taken | taken
session: response | 394 395 | unfit | unfit
session: response | 396 397 | taken | taken
session: cached | 398 399 | unfit | unfit
session: cached | 400 401 | taken | taken
session: operations | 402 404 | unfit | unfit
session: operations | 405 405 | taken | unfit
session: requests | 406 409 | unfit | unfit
session: slots | 410 416 | damaged 786 | damaged 786
session: slots | 417 417 | damaged 1170 | damaged 786
session: slot's sequence | 418 421 | taken | taken
session: kept | 422 422 | damaged 1171 | damaged 422
session: arguments' length | 423 428 | damaged 431 | damaged 431
session: arguments' length | 429 429 | damaged 879 | damaged 431
session: arguments' length | 430 430 | damaged 624 | damaged 526
session: arguments | 431 614 | taken | taken
session: reply's length | 615 620 | damaged 623 | damaged 623
session: reply's length | 621 621 | damaged 1171 | damaged 623
session: reply's length | 622 622 | damaged 1168 | damaged 667
session: reply | 623 766 | taken | taken
";

/// The context and the nodes.
const NODES: &str = "
contexts | 767 773 | damaged 1167 | damaged 1167
contexts | 774 774 | damaged 819 | damaged 1167
context: level | 775 778 | unfit | unfit
context: parent | 779 786 | unfit | unfit
context: number | 787 794 | unfit | unfit
nodes | 795 802 | damaged 987 | damaged 987
root: level | 803 806 | unfit | unfit
root: number | 807 814 | unfit | unfit
root: kind | 815 818 | damaged 815 | damaged 815
root: label | 819 822 | unfit | unfit
root: stored | 823 823 | damaged 917 | damaged 823
root: mode | 824 825 | unfit | unfit
root: mode | 826 826 | taken | unfit
root: mode | 827 827 | taken | taken
root: content's length | 828 833 | damaged 836 | damaged 836
root: content's length | 834 834 | damaged 1157 | damaged 836
root: content's length | 835 835 | damaged 902 | damaged 1029
root: change | 836 843 | taken | taken
root: accessed | 844 851 | taken | taken
root: nanoseconds | 852 855 | taken | taken
root: metadata | 856 863 | taken | taken
root: nanoseconds | 864 867 | taken | taken
root: modified | 868 875 | taken | taken
root: nanoseconds | 876 879 | taken | taken
root: verifier | 880 880 | damaged 1028 | damaged 880
root: cookies | 881 888 | taken | taken
file: level | 889 892 | unfit | unfit
file: number | 893 900 | unfit | unfit
file: kind | 901 904 | damaged 901 | damaged 901
file: label | 905 908 | unfit | unfit
file: stored | 909 909 | damaged 1128 | damaged 909
file: mode | 910 911 | unfit | unfit
file: mode | 912 912 | taken | unfit
file: mode | 913 913 | taken | taken
file: content's length | 914 920 | damaged 922 | damaged 922
file: content's length | 921 921 | damaged 1012 | damaged 1171
file: change | 922 929 | taken | taken
file: accessed | 930 937 | taken | taken
file: nanoseconds | 938 941 | taken | taken
file: metadata | 942 949 | taken | taken
file: nanoseconds | 950 953 | taken | taken
file: modified | 954 961 | taken | taken
file: nanoseconds | 962 965 | taken | taken
file: verifier | 966 966 | damaged 1027 | damaged 966
file: cookies | 967 974 | unfit | unfit
";

/// The entry and the open.
const NAMES: &str = "
entries | 975 981 | damaged 1134 | damaged 1134
entries | 982 982 | damaged 1035 | damaged 1134
entry: directory's level | 983 986 | unfit | unfit
entry: directory | 987 994 | unfit | unfit
entry: cookie | 995 1002 | unfit | unfit
entry: name's length | 1003 1009 | damaged 1011 | damaged 1011
entry: name's length | 1010 1010 | damaged 1059 | damaged 1164
entry: name | 1011 1011 | taken | unfit
entry: node's level | 1012 1015 | unfit | unfit
entry: node | 1016 1023 | unfit | unfit
opens | 1024 1030 | damaged 1170 | damaged 1170
opens | 1031 1031 | damaged 1040 | damaged 1170
open: level | 1032 1035 | unfit | unfit
open: number | 1036 1043 | unfit | unfit
open: client | 1044 1051 | unfit | unfit
open: owner's length | 1052 1058 | damaged 1060 | damaged 1060
open: owner's length | 1059 1059 | damaged 1128 | damaged 1060
open: owner | 1060 1060 | taken | taken
open: node's level | 1061 1064 | unfit | unfit
open: node | 1065 1072 | unfit | unfit
open: access | 1073 1075 | unfit | unfit
open: access | 1076 1076 | taken | unfit
open: deny | 1077 1079 | unfit | unfit
open: deny | 1080 1080 | taken | unfit
open: sequence | 1081 1083 | taken | taken
open: sequence | 1084 1084 | unfit | taken
";

/// The lock, which is for write and has one range.
const LOCKS: &str = "
locks | 1085 1091 | damaged 1171 | damaged 1171
locks | 1092 1092 | damaged 1093 | damaged 1171
lock: level | 1093 1096 | unfit | unfit
lock: number | 1097 1104 | unfit | unfit
lock: client | 1105 1112 | unfit | unfit
lock: open | 1113 1120 | unfit | unfit
lock: owner's length | 1121 1127 | damaged 1129 | damaged 1129
lock: owner's length | 1128 1128 | damaged 1169 | damaged 1129
lock: owner | 1129 1129 | taken | taken
lock: node's level | 1130 1133 | unfit | unfit
lock: node | 1134 1141 | unfit | unfit
lock: sequence | 1142 1144 | taken | taken
lock: sequence | 1145 1145 | unfit | taken
lock: ranges | 1146 1152 | damaged 1171 | damaged 1171
lock: ranges | 1153 1153 | damaged 1154 | damaged 1171
range: first | 1154 1160 | unfit | unfit
range: first | 1161 1161 | taken | unfit
range: last | 1162 1169 | taken | taken
range: write | 1170 1170 | taken | damaged 1170
";

/// The lowest bit of a byte, and the highest.
const LOWEST: u8 = 1;

const HIGHEST: u8 = 128;

/// Bytes of which a bit is another at a place.
fn flipped(alloc: Global, bytes: &[u8], place: usize, bit: u8) -> Result<Vec<u8>, AllocError> {
    let mut others = Vec::from_slice(alloc, bytes)?;
    if let Some(byte) = others.get_mut(place) {
        *byte ^= bit;
    }
    Ok(others)
}

/// What becomes of the small checkpoint with a bit that is another.
fn check_bit(
    alloc: Global,
    codecs: &Codecs,
    bytes: &[u8],
    place: usize,
    bit: u8,
    due: &str,
) -> Result<(), Flaw> {
    let others = flipped(alloc, bytes, place, bit)?;
    let row = format!(in alloc; "bit {bit} of byte {place}")?;
    comes_to(alloc, codecs, SMALL_POLICY, &others, due, &row)
}

/// The first and the last of a cell's bytes.
fn range_of(cell: &str) -> Option<(usize, usize)> {
    let (first, last) = cell.split_once(' ')?;
    Some((first.parse::<usize>().ok()?, last.parse::<usize>().ok()?))
}

/// Checks the bytes of a row, which begin at a place, and gives the place behind them.
fn check_row(
    alloc: Global,
    codecs: &Codecs,
    bytes: &[u8],
    begins: usize,
    row: &str,
) -> Result<usize, Flaw> {
    let cells = cells_of(alloc, row)?;
    let [_, range, low, high] = cells.as_slice() else {
        return Err(Flaw::new(alloc, "cells", row));
    };
    let (first, last) = read_of(alloc, range_of(range), row)?;
    demand(alloc, first == begins && last >= first, "a range", row)?;
    for place in first..last.saturating_add(1) {
        check_bit(alloc, codecs, bytes, place, LOWEST, low)?;
        check_bit(alloc, codecs, bytes, place, HIGHEST, high)?;
    }
    Ok(last.saturating_add(1))
}

/// Checks the bytes of a table's rows, which has so many, from one place up to another.
fn check_bytes(
    alloc: Global,
    range: (usize, usize),
    table: &str,
    count: usize,
) -> Result<(), Flaw> {
    let codecs = codecs_of(alloc)?;
    let laid = small(alloc)?;
    let mut place = range.0;
    for row in &counted_rows(alloc, table, count)? {
        place = check_row(alloc, &codecs, &laid.bytes, place, row)?;
    }
    demand(alloc, place == range.1, "the end", table)
}

#[test]
fn each_byte_of_the_head(rt: HostRuntime) -> Result<(), Flaw> {
    check_bytes(rt.alloc(), (0, 96), HEAD, 21)
}

#[test]
fn each_byte_of_the_client(rt: HostRuntime) -> Result<(), Flaw> {
    check_bytes(rt.alloc(), (96, 362), CLIENT, 23)
}

#[test]
fn each_byte_of_the_session(rt: HostRuntime) -> Result<(), Flaw> {
    check_bytes(rt.alloc(), (362, 767), SESSION, 26)
}

#[test]
fn each_byte_of_nodes(rt: HostRuntime) -> Result<(), Flaw> {
    check_bytes(rt.alloc(), (767, 975), NODES, 45)
}

#[test]
fn each_byte_of_names(rt: HostRuntime) -> Result<(), Flaw> {
    check_bytes(rt.alloc(), (975, 1085), NAMES, 26)
}

#[test]
fn each_byte_of_locks(rt: HostRuntime) -> Result<(), Flaw> {
    check_bytes(rt.alloc(), (1085, SMALL_SIZE), LOCKS, 19)
}

/// The bytes of the small checkpoint.
const SMALL_SIZE: usize = 1171;

/// A server's checkpoint is what was laid out by hand, and is taken.
#[test]
fn laid_out_by_hand(rt: HostRuntime) -> Result<(), Flaw> {
    let alloc = rt.alloc();
    let codecs = codecs_of(alloc)?;
    let LaidOut { bytes, .. } = small(alloc)?;
    let events = events_of(alloc, SMALL_EVENTS)?;
    let came = checkpoint_after(alloc, &codecs, SMALL_POLICY, &events)?;
    let same = came.as_slice() == bytes.as_slice() && bytes.len() == SMALL_SIZE;
    demand(alloc, same, "bytes", "by hand")?;
    comes_to(alloc, &codecs, SMALL_POLICY, &bytes, "taken", "by hand")
}

/// The last of the places that isn't behind another.
fn item_at(begins: &[usize], place: usize) -> usize {
    let mut last = 0;
    for begin in begins {
        if *begin <= place {
            last = *begin;
        }
    }
    last
}

/// Cuts the small checkpoint, which is damaged at the item that isn't whole.
fn check_cut(alloc: Global, codecs: &Codecs, laid: &LaidOut, length: usize) -> Result<(), Flaw> {
    let at = item_at(&laid.begins, length);
    let due = format!(in alloc; "damaged {at}")?;
    let bytes = laid.bytes.get(..length).unwrap_or(&[]);
    comes_to(alloc, codecs, SMALL_POLICY, bytes, &due, "a cut")
}

#[test]
fn each_cut(rt: HostRuntime) -> Result<(), Flaw> {
    let alloc = rt.alloc();
    let codecs = codecs_of(alloc)?;
    let laid = small(alloc)?;
    for length in 0..SMALL_SIZE {
        check_cut(alloc, &codecs, &laid, length)?;
    }
    Ok(())
}

/// Cuts a checkpoint to a length, and compares what becomes of it under the policy of all trials.
fn check_front(
    alloc: Global,
    codecs: &Codecs,
    bytes: &[u8],
    length: usize,
    due: &str,
) -> Result<(), Flaw> {
    let front = bytes.get(..length).unwrap_or(&[]);
    comes_to(alloc, codecs, POLICY, front, due, "another policy")
}

/// A checkpoint of one policy under another one, whole and cut.
#[test]
fn of_another_policy(rt: HostRuntime) -> Result<(), Flaw> {
    let alloc = rt.alloc();
    let codecs = codecs_of(alloc)?;
    let LaidOut { bytes, .. } = small(alloc)?;
    check_front(alloc, &codecs, &bytes, SMALL_SIZE, "policy")?;
    check_front(alloc, &codecs, &bytes, 41, "policy")?;
    check_front(alloc, &codecs, &bytes, 40, "policy")?;
    check_front(alloc, &codecs, &bytes, 39, "damaged 8")?;
    check_front(alloc, &codecs, &bytes, 8, "damaged 8")?;
    check_front(alloc, &codecs, &bytes, 7, "damaged 0")?;
    check_front(alloc, &codecs, &bytes, 0, "damaged 0")
}

#[test]
fn bytes_behind_the_end(rt: HostRuntime) -> Result<(), Flaw> {
    let alloc = rt.alloc();
    let codecs = codecs_of(alloc)?;
    let LaidOut { mut bytes, .. } = small(alloc)?;
    bytes.push(0)?;
    comes_to(
        alloc,
        &codecs,
        SMALL_POLICY,
        &bytes,
        "damaged 1171",
        "a byte behind the end",
    )
}

/// The bytes of the checkpoint of no events under the policy of all trials: 48 and for each of four levels 48 as far as the
/// last numbers go; seven counts; four directories, of 86 bytes each; and three names, of 43.
const FIRST_SIZE: usize = 48 + 4 * 48 + 7 * 8 + 4 * 86 + 3 * 43;

#[test]
fn of_no_events(rt: HostRuntime) -> Result<(), Flaw> {
    let alloc = rt.alloc();
    let codecs = codecs_of(alloc)?;
    let bytes = checkpoint_after(alloc, &codecs, POLICY, &[])?;
    demand(alloc, bytes.starts_with(b"LNFSCKP1"), "a name", "no events")?;
    demand(alloc, bytes.len() == FIRST_SIZE, "a length", "no events")?;
    check_front(alloc, &codecs, &bytes, FIRST_SIZE, "taken")?;
    check_front(alloc, &codecs, &bytes, 39, "damaged 8")
}
