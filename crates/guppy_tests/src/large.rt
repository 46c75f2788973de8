//! Large graphs: everything that is asked of them answers, and in turn where their order says so.
//!
//! In the graphs of 200000 packages, recursion over the graph would run out of the call stack.

pub(super) const LARGE: &str = "
ring_1000 | ring*1000
    list forward of all, cycles, looks 4000 = p0..=p999, 1000 p0..=p999, yes
    roots forward of all, roots reverse of all = p0..=p999 1000 p0 999, p0..=p999 1000 p0 999
    sorted links forward of all = 0..=999
    roots forward of p0 p2, roots reverse of p0 p2 = p0 p2 2 p0 1, p0 p2 2 p0 1
    links forward of p0 p2 = nothing

chain_200000 | chain*200000
    list forward of all, looks 799996 = p0..=p199999, yes

chain_200000_everything | chain*200000
    depends p0 p199999, len forward of reverse p199999, links forward of all = yes, 200000 200000, 0..=199998
    roots forward of all, roots reverse of all = p0 1 p0 0, p199999 1 p199999 0

chain_200000_everything | backwards*200000
    list forward of all, links forward of all, looks 799996 = p199999..=p0, 199998..=0, yes

ring_200000 | ring*200000
    list forward of all, cycles, looks 800000 = p0..=p199999, 200000 p0..=p199999, yes

looks_are_the_sum | d c b a: a>b b~a b>c c>d d~c
    looks sum backs = yes

looks_are_the_sum | complete*300
    looks sum complete = yes

complete_300 | complete*300
    list forward of all, cycles, looks 360000 = p0..=p299, 300 p0..=p299, yes

complete_300_shown | complete*300
    sorted resolve all forward p0 = 300 0+..=89999+
    sorted links forward of forward p0 = 0..=89999

long_cycle | ring*200000
    cycle = 200000 yes
";
