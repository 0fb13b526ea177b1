use super::{HEAD, RUN, each_fault_holds};
use scenario_lang::Mode;
use test_cases::Wrong;

const HEADERS: &str = "\
|# only a comment| => 3 Header
mesh 1| => 2 Header
mesh 1 => 1 Words
mesh 2| => 1 Header
mesh 01| => 1 Header
mesh 1 1| => 1 Words
mesh| => 1 Words
Mesh 1| => 1 Words
local home 9| => 1 Header
report| => 1 Header
mesh 1|mesh 1| => 2 Header
mesh 1|report| => 2 Header
mesh 1|local Home 9| => 2 Name
mesh 1|local -home 9| => 2 Name
mesh 1|local home 0| => 2 Number
mesh 1|local home 256| => 2 Number
mesh 1|local home 09| => 2 Number
mesh 1|local home| => 2 Words
mesh 1|local home 9|local home 9| => 3 Header
mesh 1|local home 9|lease 0| => 3 Number
mesh 1|local home 9|lease 1000000001| => 3 Number
mesh 1|local home 9|lease 5|lease 5| => 4 Header
mesh 1|local home 9|remote east 1 cached| => 3 Words
mesh 1|local home 9|remote home 1 direct| => 3 Repeated
mesh 1|local home 9|remote a 1 direct|remote a 2 direct| => 4 Repeated
mesh 1|local home 9|remote a 1 direct|lease 5| => 4 Header
mesh 1|local home 9|report|remote a 1 direct| => 4 Header
mesh 1|local home 9|report|lease 5| => 4 Header
 => 1 Header
";

#[test]
fn a_faulty_header_is_refused(rt: HostRuntime) -> Result<(), Wrong> {
    each_fault_holds(rt.alloc(), Mode::Step, "", HEADERS)
}

const ACTIONS: &str = "\
repor => 4 Words
repor| => 4 Words
report 1| => 4 Words
service east prod web| => 4 Words
settle| => 4 Words
turn mesh east all| => 4 Words
restart mesh east| => 4 Words
tick\t5| => 4 Words
# caf\u{e9}| => 4 Words
tick 0| => 4 Number
tick 1000000001| => 4 Number
tick 18446744073709551617| => 4 Number
export east 0| => 4 Number
export east some| => 4 Number
start west| => 4 UnknownCluster
start home| => 4 UnknownCluster
start East| => 4 Name
start east west| => 4 Words
node east N1| => 4 Name
node east n1 10.0.0.01| => 4 Address
node east n1 10.0.0.1 10.0.0.256| => 4 Address
node east| => 4 Words
identity east 4294967296 -| => 4 Number
identity east 1 k8s:app=web| => 4 Words
identity east 1 app=web;| => 4 Words
identity east 1 k8s:app=web%3| => 4 Words
address east 10.0.0.1 1| => 4 Words
address east 10.0.0.1 1 - prod| => 4 Words
address east 10.0.0.1 1 - prod web x| => 4 Words
address east 10.0.0.1 1 host| => 4 Address
address east 10.0.0.1 1 - prod Web| => 4 Name
withdraw east service prod web| => 4 Words
withdraw east service prod| => 4 Words
withdraw east identity 4294967296| => 4 Number
withdraw east address 1::2::3| => 4 Address
raw east put - a| => 4 Words
raw east put a%4 a| => 4 Words
raw east put a %zz| => 4 Words
raw east delete -| => 4 Words
raw east delete a b| => 4 Words
raw east get a| => 4 Words
";

#[test]
fn a_faulty_action_is_refused(rt: HostRuntime) -> Result<(), Wrong> {
    each_fault_holds(rt.alloc(), Mode::Step, HEAD, ACTIONS)
}

const ACTIONS_ON_THE_WAY: &str = "\
compact east| => 4 Words
compact east 2 3| => 4 Words
compact East 2| => 4 Name
compact west 2| => 4 UnknownCluster
compact east 0| => 4 Number
compact home 1000000001| => 4 Number
compact home 02| => 4 Number
compact home all| => 4 Number
link east agent| => 4 Words
link east agent up up| => 4 Words
link east agent Down| => 4 Words
link east agent before| => 4 Words
link east reader up| => 4 Words
link east agents up| => 4 Words
link home agent up| => 4 UnknownCluster
link e_st agent up| => 4 Name
link east remote up| => 4 Mode
link east local down| => 4 Mode
fail east agent 0| => 4 Words
fail east agent before| => 4 Words
fail east agent 0 before 0| => 4 Words
fail east agent 0 up| => 4 Words
fail east agent 0 AFTER| => 4 Words
fail east 0 agent before| => 4 Words
fail - agent 0 before| => 4 Name
fail west agent 0 before| => 4 UnknownCluster
fail east agent 1000001 before| => 4 Number
fail east agent 00 before| => 4 Number
fail east agent all after| => 4 Number
fail east remote 0 after| => 4 Mode
fail east local 0 before| => 4 Mode
turn agent east| => 4 Words
turn east all| => 4 Words
turn agent east all all| => 4 Words
turn agents east all| => 4 Words
turn agent home all| => 4 UnknownCluster
turn agent EAST all| => 4 Name
turn agent east 0| => 4 Number
turn agent east 1000000001| => 4 Number
turn agent east All| => 4 Number
restart| => 4 Words
restart agent east| => 4 Words
restart Agent| => 4 Words
";

#[test]
fn a_faulty_action_on_the_way_to_the_agent_is_refused(rt: HostRuntime) -> Result<(), Wrong> {
    each_fault_holds(rt.alloc(), Mode::Step, HEAD, ACTIONS_ON_THE_WAY)
}

/// Of a line its fixed words, its escapes and the number of its words come before its place, then
/// come its words from the left, and at last a repeated name and the link. Of lines the first
/// counts.
const SEVERAL_FAULTS: &str = "\
report|remote EAST 999 up| => 5 Words
report|lease 0 0| => 5 Words
report|remote EAST 999 direct| => 5 Header
report|mesh 2| => 5 Header
node WEST N1 x| => 4 Name
node west N1 x| => 4 UnknownCluster
node east N1 x| => 4 Name
identity west 4294967296 -| => 4 UnknownCluster
address east x 4294967296 x| => 4 Address
address east 10.0.0.1 4294967296 x| => 4 Number
address east 10.0.0.1 1 x P p| => 4 Address
remote home 999 direct| => 4 Number
tick 0|what| => 4 Number
# what||  |tick 5|what| => 8 Words
fail EAST link 1000001 never| => 4 Words
fail EAST remote 1000001 never| => 4 Words
fail EAST remote 1000001 after| => 4 Name
fail west remote 1000001 after| => 4 UnknownCluster
fail east remote 1000001 after| => 4 Number
link west remote up| => 4 UnknownCluster
compact WEST 0| => 4 Name
compact west 0| => 4 UnknownCluster
turn agent west 0| => 4 UnknownCluster
link east remote up|link east up| => 4 Mode
link east agent up|link east up| => 5 Words
";

#[test]
fn the_first_fault_counts(rt: HostRuntime) -> Result<(), Wrong> {
    each_fault_holds(rt.alloc(), Mode::Step, HEAD, SEVERAL_FAULTS)
}

const LINES_ON_THREADS: &str = "\
report| => 4 Mode
report x| => 4 Words
report|tick 5| => 4 Mode
tick 5|# no settle| => 4 Mode
tick 5|tick 5| => 5 Mode
tick 5|tick 0| => 5 Number
restart agent| => 4 Mode
restart agent|# again|restart agent| => 6 Mode
restart agent|tick 5|restart agent|tick 5| => 6 Mode
tick 5|restart agent|tick 0| => 5 Mode
restart agent|restart agent|tick 0| => 6 Number
link east local up|tick 0| => 4 Mode
link east agent up|tick 0| => 5 Number
# nothing to do| => none
 => none
";

#[test]
fn threads_want_other_lines(rt: HostRuntime) -> Result<(), Wrong> {
    each_fault_holds(rt.alloc(), RUN, HEAD, LINES_ON_THREADS)
}
