//! What options are called.

/// The kinds of links that count.
pub const KINDS: &str = "--kinds";
/// A platform on which links count.
pub const PLATFORM: &str = "--platform";
/// The file that says what is set on a platform.
pub const CFGS: &str = "--cfgs";
/// The host, on which what is built to run there counts.
pub const HOST: &str = "--host";
/// The file that says what is set on the host.
pub const HOST_CFGS: &str = "--host-cfgs";
/// Members of the workspace are shown alone.
pub const WORKSPACE: &str = "--workspace";
/// Packages are called by their IDs.
pub const IDS: &str = "--ids";
/// Lines end with a NUL.
pub const NULL: &str = "--null";
/// How an answer is written.
pub const FORMAT: &str = "--format";
/// Members that can be published are wanted alone.
pub const PUBLISHABLE: &str = "--publishable";
/// A folder whose paths count for nothing.
pub const IGNORE: &str = "--ignore";
/// A folder that belongs to a package beside its own.
pub const ALSO: &str = "--also";
/// A file that has more paths.
pub const PATHS_FROM: &str = "--paths-from";
/// A file that has the input of the state before.
pub const BEFORE: &str = "--before";
/// A member that Cargo builds.
pub const MEMBER: &str = "-p";
/// Features that Cargo is asked for.
pub const FEATURES: &str = "--features";
/// All features of these members are asked for.
pub const ALL_FEATURES: &str = "--all-features";
/// Their `default` isn't asked for.
pub const NO_DEFAULT_FEATURES: &str = "--no-default-features";
/// Tests are built, too.
pub const TESTS: &str = "--tests";
/// The resolver of features.
pub const RESOLVER: &str = "--resolver";
