//! Records that break a rule: each rule at the first, a middle and the last place and twice, and two rules
//! at once.
//!
//! That there are too many packages or links is broken by no test, since it would have to make so many.

// Of two places the first is told.
pub(super) const EACH_PLACE: &str = "
repeated_package_id | a a b c d
    counts = failed to construct package graph: repeated package ID at package 1
repeated_package_id | a b a c d
    counts = failed to construct package graph: repeated package ID at package 2
repeated_package_id | a b c d a
    counts = failed to construct package graph: repeated package ID at package 4
repeated_package_id | a b a b c
    counts = failed to construct package graph: repeated package ID at package 2

repeated_build_target | p +bin=x +bin=x q +bin=x r
    counts = failed to construct package graph: repeated build target 1 in package 0
repeated_build_target | p +bin=x q +bin=x +bin=y +bin=x r
    counts = failed to construct package graph: repeated build target 2 in package 1
repeated_build_target | p q r +bin=x +bin=y +test=x +bin=y
    counts = failed to construct package graph: repeated build target 3 in package 2
repeated_build_target | p q +bin=x +bin=y +bin=x +bin=y r +test=t +test=t
    counts = failed to construct package graph: repeated build target 2 in package 1

unnamed_build_target | p +lib q +bin=x r
    counts = failed to construct package graph: build target 0 in package 0 has no name
unnamed_build_target | p q +bin=x +lib +test=t r
    counts = failed to construct package graph: build target 1 in package 1 has no name
unnamed_build_target | p q +lib=q r +bin=x +lib
    counts = failed to construct package graph: build target 1 in package 2 has no name
unnamed_build_target | p q +bin=x +lib r +lib
    counts = failed to construct package graph: build target 1 in package 1 has no name

repeated_workspace_path | @a b=b@a/ @c @d
    counts = failed to construct package graph: repeated workspace path at package 1
repeated_workspace_path | @a @b c=c@a/. @d
    counts = failed to construct package graph: repeated workspace path at package 2
repeated_workspace_path | @a @b @c d=d@b/
    counts = failed to construct package graph: repeated workspace path at package 3
repeated_workspace_path | @a @b c=c@b/ d=d@a/
    counts = failed to construct package graph: repeated workspace path at package 2

repeated_workspace_name | @a b=a@b @c @d
    counts = failed to construct package graph: repeated workspace name at package 1
repeated_workspace_name | @a @b c=a@c @d
    counts = failed to construct package graph: repeated workspace name at package 2
repeated_workspace_name | @a @b @c d=b@d
    counts = failed to construct package graph: repeated workspace name at package 3
repeated_workspace_name | @a @b c=b@c d=a@d
    counts = failed to construct package graph: repeated workspace name at package 2

unknown_default_member | a b !z !a !b
    counts = failed to construct package graph: unknown default member 0
unknown_default_member | a b !a !z !b
    counts = failed to construct package graph: unknown default member 1
unknown_default_member | a b !a !b !z
    counts = failed to construct package graph: unknown default member 2
unknown_default_member | a b !a !y !z
    counts = failed to construct package graph: unknown default member 1

unknown_link_end | a b: z>a a>b b>a
    counts = failed to construct package graph: unknown package at link 0
unknown_link_end | a b: a>b a>z b>a
    counts = failed to construct package graph: unknown package at link 1
unknown_link_end | a b: a>b b>a b>z
    counts = failed to construct package graph: unknown package at link 2
unknown_link_end | a b: a>b z>a b>y
    counts = failed to construct package graph: unknown package at link 1

repeated_link | a b: a>b a>b b>a b>b
    counts = failed to construct package graph: repeated link 1
repeated_link | a b: a>b b>a a>b b>b
    counts = failed to construct package graph: repeated link 2
repeated_link | a b: a>b b>a b>b b>a
    counts = failed to construct package graph: repeated link 3
repeated_link | a b: a>b b>a b>a a>b
    counts = failed to construct package graph: repeated link 2
";

// Eight changes of one graph's records, each alone and each two of them: the fault of the one that stands
// higher is told.
pub(super) const TWO_FAULTS: &str = "
two_faults_at_once | @a @b @c !a: a>b b>c
    counts = 3 2 3 3 3

two_faults_at_once | @a @b @c a=p3@p3 !a: a>b b>c
    counts = failed to construct package graph: repeated package ID at package 3
two_faults_at_once | @a @b +bin=x +bin=x @c !a: a>b b>c
    counts = failed to construct package graph: repeated build target 1 in package 1
two_faults_at_once | @a +lib @b @c !a: a>b b>c
    counts = failed to construct package graph: build target 0 in package 0 has no name
two_faults_at_once | @a @b c=c@a/ !a: a>b b>c
    counts = failed to construct package graph: repeated workspace path at package 2
two_faults_at_once | @a b=a@b @c !a: a>b b>c
    counts = failed to construct package graph: repeated workspace name at package 1
two_faults_at_once | @a @b @c !a !z: a>b b>c
    counts = failed to construct package graph: unknown default member 1
two_faults_at_once | @a @b @c !a: a>b b>c c>z
    counts = failed to construct package graph: unknown package at link 2
two_faults_at_once | @a @b @c !a: a>b b>c a>b
    counts = failed to construct package graph: repeated link 2

two_faults_at_once | @a @b +bin=x +bin=x @c a=p3@p3 !a: a>b b>c
    counts = failed to construct package graph: repeated package ID at package 3
two_faults_at_once | @a +lib @b @c a=p3@p3 !a: a>b b>c
    counts = failed to construct package graph: repeated package ID at package 3
two_faults_at_once | @a @b c=c@a/ a=p3@p3 !a: a>b b>c
    counts = failed to construct package graph: repeated package ID at package 3
two_faults_at_once | @a b=a@b @c a=p3@p3 !a: a>b b>c
    counts = failed to construct package graph: repeated package ID at package 3
two_faults_at_once | @a @b @c a=p3@p3 !a !z: a>b b>c
    counts = failed to construct package graph: repeated package ID at package 3
two_faults_at_once | @a @b @c a=p3@p3 !a: a>b b>c c>z
    counts = failed to construct package graph: repeated package ID at package 3
two_faults_at_once | @a @b @c a=p3@p3 !a: a>b b>c a>b
    counts = failed to construct package graph: repeated package ID at package 3

two_faults_at_once | @a +lib @b +bin=x +bin=x @c !a: a>b b>c
    counts = failed to construct package graph: repeated build target 1 in package 1
two_faults_at_once | @a @b +bin=x +bin=x c=c@a/ !a: a>b b>c
    counts = failed to construct package graph: repeated build target 1 in package 1
two_faults_at_once | @a b=a@b +bin=x +bin=x @c !a: a>b b>c
    counts = failed to construct package graph: repeated build target 1 in package 1
two_faults_at_once | @a @b +bin=x +bin=x @c !a !z: a>b b>c
    counts = failed to construct package graph: repeated build target 1 in package 1
two_faults_at_once | @a @b +bin=x +bin=x @c !a: a>b b>c c>z
    counts = failed to construct package graph: repeated build target 1 in package 1
two_faults_at_once | @a @b +bin=x +bin=x @c !a: a>b b>c a>b
    counts = failed to construct package graph: repeated build target 1 in package 1

two_faults_at_once | @a +lib @b c=c@a/ !a: a>b b>c
    counts = failed to construct package graph: build target 0 in package 0 has no name
two_faults_at_once | @a +lib b=a@b @c !a: a>b b>c
    counts = failed to construct package graph: build target 0 in package 0 has no name
two_faults_at_once | @a +lib @b @c !a !z: a>b b>c
    counts = failed to construct package graph: build target 0 in package 0 has no name
two_faults_at_once | @a +lib @b @c !a: a>b b>c c>z
    counts = failed to construct package graph: build target 0 in package 0 has no name
two_faults_at_once | @a +lib @b @c !a: a>b b>c a>b
    counts = failed to construct package graph: build target 0 in package 0 has no name

two_faults_at_once | @a b=a@b c=c@a/ !a: a>b b>c
    counts = failed to construct package graph: repeated workspace path at package 2
two_faults_at_once | @a @b c=c@a/ !a !z: a>b b>c
    counts = failed to construct package graph: repeated workspace path at package 2
two_faults_at_once | @a @b c=c@a/ !a: a>b b>c c>z
    counts = failed to construct package graph: repeated workspace path at package 2
two_faults_at_once | @a @b c=c@a/ !a: a>b b>c a>b
    counts = failed to construct package graph: repeated workspace path at package 2

two_faults_at_once | @a b=a@b @c !a !z: a>b b>c
    counts = failed to construct package graph: repeated workspace name at package 1
two_faults_at_once | @a b=a@b @c !a: a>b b>c c>z
    counts = failed to construct package graph: repeated workspace name at package 1
two_faults_at_once | @a b=a@b @c !a: a>b b>c a>b
    counts = failed to construct package graph: repeated workspace name at package 1

two_faults_at_once | @a @b @c !a !z: a>b b>c c>z
    counts = failed to construct package graph: unknown default member 1
two_faults_at_once | @a @b @c !a !z: a>b b>c a>b
    counts = failed to construct package graph: unknown default member 1

two_faults_at_once | @a @b @c !a: a>b b>c c>z a>b
    counts = failed to construct package graph: unknown package at link 2
";
