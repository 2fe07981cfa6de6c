// No way to cut a column's long rows into blocks has fewer of them than compaction: specs/Lawful says which ways there are, specs/Fewest what is proved.
#![tactic(auto)]
