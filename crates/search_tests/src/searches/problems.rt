//! The problems that the tests search.

/// Machine a runs on the only node, which has room for one, and b is ready. Actions last 1, and all end by 3.
pub const STEADY: &str = r#"{"horizon":3,"resources":["cpu"],
"nodes":[{"name":"m","capacity":{"cpu":1}}],
"machines":[{"name":"a","state":"running","node":"m","use":{"cpu":1}},
{"name":"b","state":"ready","use":{"cpu":1}}],"constraints":[]}"#;

/// The same, where b is to run.
pub const CROWDED: &str = r#"{"horizon":3,"resources":["cpu"],
"nodes":[{"name":"m","capacity":{"cpu":1}}],
"machines":[{"name":"a","state":"running","node":"m","use":{"cpu":1}},
{"name":"b","state":"ready","use":{"cpu":1}}],
"constraints":[{"kind":"running","machines":["b"]}]}"#;

/// The same with a second node.
pub const ROOMY: &str = r#"{"horizon":3,"resources":["cpu"],
"nodes":[{"name":"m","capacity":{"cpu":1}},{"name":"n","capacity":{"cpu":1}}],
"machines":[{"name":"a","state":"running","node":"m","use":{"cpu":1}},
{"name":"b","state":"ready","use":{"cpu":1}}],
"constraints":[{"kind":"running","machines":["b"]}]}"#;
