//! The laws are contracts: nothing is answered.

use parsing::laws;

#[test]
fn readings() {
    laws::three_instants();
    laws::two_roads();
    laws::two_formats();
    laws::joined_descriptions();
    laws::two_versions();
    parsing::laws::two_formats();
    parsing_values::date_laws::one_day();
    parsing_values::laws::three_instants();
    laws::tried_at_most_nodes();
    laws::few_nodes();
}
