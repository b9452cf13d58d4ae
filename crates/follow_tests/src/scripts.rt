//! The lines of scripts, by what each shows.

/// A Type 2 tag is read, written and read again, the second time through noise.
const TYPE_2: [&str; 5] = [
    "place t2 01020304 16 000000000000000000000000E11006000303D00000FE",
    "read 01020304",
    "write 01020304 D10110",
    "fates PDPPL",
    "read 01020304",
];

/// A tag is lost in the midst of a write, and found again.
const BROKEN_WRITE: [&str; 5] = [
    "place t2 01020304 16 000000000000000000000000E11006000303D00000FE",
    "fates PPPPPPPPPPPPPPPPPPB",
    "write 01020304 gen:20:1",
    "find",
    "read 01020304",
];

/// A Type 4 tag that asks for more time, and a Type 5 tag, are found and read.
const TYPES_4_AND_5: [&str; 7] = [
    "place t4 02030405 0 000F20003B00340406E10400200000 0003D00000",
    "busy 02030405 2 3",
    "place t5 E004010203040506 4 32 E1400F000303D00000FE",
    "find",
    "crowd",
    "read 02030405",
    "read E004010203040506",
];

/// A Type 3 tag is sought, read and written.
const TYPE_3: [&str; 4] = [
    "place t3 0102030405060708 14 100401000D0000000000010000030026D00000",
    "poll3",
    "read3 0102030405060708",
    "write3 0102030405060708 D10100",
];

/// A message is put, a value is got, a service is looked up, and the link is closed.
const LINKED: [&str; 7] = [
    "place peer 08010203 3 128 1 1024",
    "offer 08010203 6B D10100",
    "link 08010203 128 1",
    "put D1",
    "get 16 6B",
    "lookup urn:nfc:sn:snep",
    "unlink",
];

/// Six receptions of a reply are bad, and another link is opened.
const SIX_BAD: [&str; 6] = [
    "place peer 08010203 3 128 1 1024",
    "link 08010203 128 1",
    "fates PDPDPDPDPDPD",
    "put D1",
    "link 08010203 128 1",
    "put D2",
];

/// Clients put a message each, and a payload is cut off in its third frame, where several numbers of PDUs are possible;
/// another link is opened, and a message is put on it.
const CUT_OFF: [&str; 6] = [
    "place peer 08010203 0 2175 15 1024",
    "link 08010203 2175 15",
    "fates PPB",
    "puts 0:gen:60:0 1:gen:60:1 2:gen:60:2 3:gen:60:3 4:gen:60:4 5:gen:60:5 6:gen:60:6 7:gen:60:7",
    "link 08010203 2175 15",
    "put gen:60:9",
];

/// Payloads are written by hand, and frames are sent to a tag as they are.
const BY_HAND: [&str; 5] = [
    "place peer 08010203 3 128 1 1024",
    "forge 08010203 0000 0581",
    "remove 08010203",
    "place t2 01020304 16 000000000000000000000000E11006000303D00000FE",
    "raw 01020304 3004 5000",
];

pub(crate) const SCRIPTS: [&[&str]; 8] = [
    &TYPE_2,
    &BROKEN_WRITE,
    &TYPES_4_AND_5,
    &TYPE_3,
    &LINKED,
    &SIX_BAD,
    &CUT_OFF,
    &BY_HAND,
];
