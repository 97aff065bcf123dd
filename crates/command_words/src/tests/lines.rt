// Lines of words, by what is answered to them. Words have one space between them, and two spaces have
// an empty word between them.

pub const UNKNOWN: [&str; 12] = [
    "report -",
    "report --",
    "--help",
    "report -h",
    "--version",
    "report -V",
    "report --core 2",
    "report --Cores 2",
    "report -cores 2",
    "report ---cores 2",
    "report --=5",
    "other -x=1",
];

pub const TWICE: [&str; 4] = [
    "report --cores 2 --cores 2",
    "--cores=2 report --cores 4",
    "report --journal --journal",
    "--work count --work flags report",
];

pub const WITHOUT_VALUE: [&str; 8] = [
    "report --cores",
    "report --cores --journal",
    "report --cores -1",
    "report --moves --table 0",
    "report --cores=",
    "--table= report",
    "report --journal=",
    "report --journal=true",
];

pub const OTHER_COUNT: [&str; 7] = [
    "--journal",
    "--cores 2",
    "--cores report",
    "make 1 2 3",
    "make 1 2 ",
    "report --cores 2 1 2 3",
    "make 1 --pool 2 2 3",
];

pub const BAD_MODES: [&str; 7] = [
    "",
    "other",
    "Report",
    "reports",
    "h\u{e9}lp",
    "=--cores",
    "--cores 65 other 1 2",
];

pub const BAD_VALUES: [&str; 17] = [
    "hash 5",
    "report ",
    "plan x y",
    "make",
    "make 5",
    "demo 5",
    "make 5 x",
    "make  1",
    "make +1 1",
    "make 1.0 1",
    "make 10000001 0",
    "demo 10000001 0",
    "make 0 4294967296",
    "make 00000000001 1",
    "make 1 10000000000",
    "hash 5 --cores 65",
    "report 1 --journal",
];

pub const GOOD_VALUES: [&str; 4] = [
    "make 10000000 4294967295",
    "make 0000000001 0000000000",
    "--pool 2 make --cores=64 5 --limit 0 7 --round=1",
    "plan",
];

pub const BAD_CORES: [&str; 10] = [
    "report --cores 0",
    "report --cores 65",
    "report --cores ",
    "report --cores +4",
    "report --cores 4x",
    "report --cores==4",
    "report --cores 00000000004",
    "report --cores 9999999999",
    "plan --cores 65",
    "report --serial 4294967296 --cores 65",
];

pub const BAD_BUCKETS: [&str; 5] = [
    "report --buckets 0",
    "report --buckets 3",
    "report --buckets 2049",
    "report --buckets 4096",
    "report --table 9 --buckets=6",
];

pub const BAD_KEYS: [&str; 4] = [
    "report --key 00",
    "report --key 0123456789abcdef0123456789abcdef0123456789abcdef0123456789abcdef0123456789abcde",
    "report --key 0123456789abcdef0123456789abcdef0123456789abcdef0123456789abcdef0123456789abcdefa",
    "report --key 0123456789abcdef0123456789abcdef0123456789abcdef0123456789abcdef0123456789abcdeg",
];

pub const BAD_TABLES: [&str; 8] = [
    "report --table 0",
    "report --cores 2 --buckets 2 --table 0,2",
    "report --cores 2 --buckets 2 --table 0",
    "report --cores 2 --buckets 2 --table 0,1,0",
    "report --cores 2 --buckets 2 --table 0,",
    "report --cores 2 --buckets 2 --table ,",
    "report --cores 2 --buckets 2 --table 0;1",
    "report --table 0,256 --buckets 2 --cores 64",
];

pub const BAD_WORKS: [&str; 3] = ["report --work Count", "report --work tcp", "hash --work "];

pub const BAD_MOVES: [&str; 9] = [
    "report --moves ",
    "report --moves 1:0",
    "report --moves 1:0:1:1",
    "report --moves 1:0:4",
    "report --moves 1:128:0",
    "report --moves 2:0:1,1:0:0",
    "report --moves 4294967296:0:0",
    "report --moves 1:0:1,",
    "report --moves 00000000001:0:1",
];

pub const BAD_ROUNDS: [&str; 2] = ["report --round 0", "report --round 1000001"];

pub const BAD_LIMITS: [&str; 2] = ["report --limit 17", "report --limit 16a"];

pub const BAD_POOLS: [&str; 2] = ["report --pool 1", "report --pool 4097"];

pub const BAD_PACKETS: [&str; 2] = ["report --packets 0", "report --packets 4294967296"];

pub const BAD_SERIALS: [&str; 2] = [
    "report --serial 4294967296",
    "demo 1 1 --journal --serial x",
];

pub const SCHEDULES: [&str; 7] = [
    "demo 1 1",
    "report --journal",
    "report --serial 0",
    "report --serial 4294967295",
    "hash --journal",
    "make 1 1 --serial=3",
    "--serial 7 plan --journal",
];

pub const BOUNDS: [&str; 8] = [
    "report --cores 1 --buckets 1 --table 0 --round 1 --limit 0 --pool 2 --packets 1",
    "report --cores 64 --buckets 2048 --round 1000000 --limit 16 --pool 4096 --packets 4294967295",
    "report --cores 0000000001 --moves 0:127:0,4294967295:0:0",
    "report --buckets 2 --table 3,0000000003 --work count",
    "hash --buckets 4 --work=flags",
    "report --key 0123456789abcdefABCDEF0123456789abcdef0123456789abcdef0123456789abcdef0123456789",
    "report --moves 5:0:0,5:0:0,5:1:3",
    "report",
];
