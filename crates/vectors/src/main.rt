// A fixed sample of the second program's generated cases, made by it (second/vectors). What each prints is what it says itself.
#![tactic(auto)]

use shown::{files, graphs, listings, plans, ran, times, turn_runs};
use std::io;

fn main(rt: HostRuntime) -> io::Result<()> {
    cases_of_files_read(&rt)?;
    cases_of_files_write_all(&rt)?;
    cases_of_graphs_show(&rt)?;
    cases_of_ran_show(&rt)?;
    cases_of_plans_show_plan(&rt)?;
    cases_of_plans_show_check(&rt)?;
    cases_of_turn_runs_show(&rt)?;
    cases_of_times_show(&rt)?;
    cases_of_listings_show(&rt)
}

fn cases_of_files_read(rt: &impl Print) -> io::Result<()> {
    case_9_read(rt)?;
    case_17_read(rt)?;
    case_20_read(rt)?;
    case_62_read(rt)?;
    case_66_read(rt)?;
    case_68_read(rt)?;
    case_148_read(rt)?;
    case_176_read(rt)?;
    case_371_read(rt)
}

fn cases_of_files_write_all(rt: &impl Print) -> io::Result<()> {
    case_10_written(rt)?;
    case_11_written(rt)?;
    case_47_written(rt)?;
    case_51_written(rt)?;
    case_167_written(rt)?;
    case_396_written(rt)
}

fn cases_of_graphs_show(rt: &impl Print) -> io::Result<()> {
    the_graph_of_case_68(rt)?;
    the_graph_of_case_101(rt)?;
    the_graph_of_case_233(rt)?;
    the_graph_of_case_8073(rt)
}

fn cases_of_ran_show(rt: &impl Print) -> io::Result<()> {
    case_247_run(rt)?;
    case_370_run(rt)?;
    case_27350_run(rt)?;
    case_31602_run(rt)
}

fn cases_of_plans_show_plan(rt: &impl Print) -> io::Result<()> {
    case_84_planned(rt)?;
    case_103_planned(rt)?;
    case_131_planned(rt)?;
    case_233_planned(rt)
}

fn cases_of_plans_show_check(rt: &impl Print) -> io::Result<()> {
    the_plan_of_case_16(rt)?;
    the_plan_of_case_43(rt)?;
    the_plan_of_case_93(rt)?;
    the_plan_of_case_94(rt)?;
    the_plan_of_case_279(rt)?;
    the_plan_of_case_313(rt)
}

fn cases_of_turn_runs_show(rt: &impl Print) -> io::Result<()> {
    case_381_by_turns(rt)?;
    case_481_by_turns(rt)?;
    case_17929_by_turns(rt)?;
    case_20910_by_turns(rt)
}

fn cases_of_times_show(rt: &impl Print) -> io::Result<()> {
    case_458_timed(rt)?;
    case_621_timed(rt)?;
    case_694_timed(rt)?;
    case_1593_timed(rt)
}

fn cases_of_listings_show(rt: &impl Print) -> io::Result<()> {
    case_16_listed(rt)?;
    case_42_listed(rt)?;
    case_133_listed(rt)?;
    case_142_listed(rt)
}

fn case_9_read(rt: &impl Print) -> io::Result<()> {
    files::read(
        rt,
        "case 9 read",
        b"\x01\x04\x01\x01\x01\x01\x01\x02\x01\x01\x1D\x01\x11\x01\x01\x01\x01\x01\x04\x02\x00\x02\x03\x01\x00\x03\x00\x01\x01\x00\x01\x01\x00\x01\x03\x00\x03\x05\x00\x01\x05\x04\x02\x00",
    )
}

fn case_17_read(rt: &impl Print) -> io::Result<()> {
    files::read(
        rt,
        "case 17 read",
        b"\x01\x05\x01\x03\x01\x01\x09\x01\x09\x02\x03\x01\x03\x02\x09\x00\x01\x01\x09",
    )
}

fn case_20_read(rt: &impl Print) -> io::Result<()> {
    files::read(
        rt,
        "case 20 read",
        b"\x01\x06\x9B\x05\x01\x9B\x05\x2C\x57\x04\x57\x06\x9B\x05\x02\x9B\x05\x14\x9B\x05\x03\x9B\x05\x17\x9B\x05\x01\x9B\x05\x1C\x9B\x05\x01\x9B\x05\x24\x02\xFF\xFF\xFF",
    )
}

fn case_62_read(rt: &impl Print) -> io::Result<()> {
    files::read(
        rt,
        "case 62 read",
        b"\x01\x04\x01\x03\x01\x01\x02\x04\x01\x01\x01\x04\x01\x01\x02\x02\x01\x01\x07\x02\x00\x01\x00\x01\x03\x00\x03\x01\x02\x02\x03\x01",
    )
}

fn case_66_read(rt: &impl Print) -> io::Result<()> {
    files::read(
        rt,
        "case 66 read",
        b"\x01\x01\x47\x02\x2E\x2E\x01\x00\x00\x00\x02\x00\xFF\xFF\xFF\x7F\x02\x80\x01\x00\x05\x02\x01\x00",
    )
}

fn case_68_read(rt: &impl Print) -> io::Result<()> {
    files::read(
        rt,
        "case 68 read",
        b"\x01\x01\x30\x02\x1F\x01\x00\x00\x07\x05\x01\x01\x00\x02\x04\x06\x80\x80\x80\x80\x08\x02\x07\x05\x05\x00\x06\xA3\xBF\x01\x00\x01\x05\x06\x07\x01\x01\x03\x01\x00\x04\x09\x00",
    )
}

fn case_148_read(rt: &impl Print) -> io::Result<()> {
    files::read(
        rt,
        "case 148 read",
        b"\x01\x03\x01\x01\x01\x01\x02\x02\x02\x01\x01\x02\x01\x01\x00\x00\x01\x05\x05\x01\x00\x01\x00\x00\x94\xD0\xE3\xEB\x0A\x00\x03\x05\x03\xFF\xFF\xFF\xFF\x7F\x00\x05\x01\x03\x00\x06\x03\x00\x00",
    )
}

fn case_176_read(rt: &impl Print) -> io::Result<()> {
    files::read(
        rt,
        "case 176 read",
        b"\x01\x01\x01\x04\x01\x01\x00\x00\x06\x05\x03\x06\x00\x06\x07\x00\x00\x00\x07\x01\x00\x00\x00\x9E\xF4\x8B\x5B\x00\x00\x04\xC1\xBD\x70\x00\x00\x00\x13\x00\x00",
    )
}

fn case_371_read(rt: &impl Print) -> io::Result<()> {
    files::read(
        rt,
        "case 371 read",
        b"\x01\x07\x12\x02\x12\x10\x03\x01\x01\x01\x12\x04\x06\x01\x04\x01\x04\x04\x04\x02\x04\x01\x01\x02\x01\x01\x24\x02\x1F\x1F\x07\x00\x02\x02\x01\x06\x03\x04\x01\x00\x06\x05\x04\x05\x06\x05\x00\x05\x05\x08\x00",
    )
}

fn case_10_written(rt: &impl Print) -> io::Result<()> {
    let loaded = reader::read(b"\x01\x01\x01\x02\x01\x01\x00\x00\x01\x01\x05\x06\x04");
    let mut net = loaded.network;
    let mut out = [0xEEu8; 12];
    files::write_all(rt, "case 10 written", net, &mut out)
}

fn case_11_written(rt: &impl Print) -> io::Result<()> {
    let loaded = reader::read(
        b"\x01\x05\x04\x02\x04\x01\x06\x02\x06\x01\x06\x01\x06\x01\x01\x01\x01\x01\x0C\x01\x0C\x01\x06\x00\x04\x03\x01\x03\x04\x02\x01\x03\x00\x02\x00\x03\x01\x00\x03\x01\x00\x04\x00\x01\x00\x00\x03\x02\x00\x00\x00\x00\x00",
    );
    let mut net = loaded.network;
    net.actions[96] = 6;
    let mut out = [0xEEu8; 54];
    files::write_all(rt, "case 11 written", net, &mut out)
}

fn case_47_written(rt: &impl Print) -> io::Result<()> {
    let loaded = reader::read(
        b"\x01\x02\x05\x01\x05\x01\x05\x01\x05\x01\x01\x00\x01\x02\x01\x01\x00\x01\x00\x00\x01\x03\x01\x02\x01\x04\x04\x01\x01\x00\x03\x00",
    );
    let mut net = loaded.network;
    net.pair_count = 4226647695;
    let mut out = [0xEEu8; 33];
    files::write_all(rt, "case 47 written", net, &mut out)
}

fn case_51_written(rt: &impl Print) -> io::Result<()> {
    let loaded = reader::read(
        b"\x01\x03\x02\x02\x01\x01\x04\x01\x04\x04\x01\x01\x01\x01\x00\x00\x00\x00\x00",
    );
    let mut net = loaded.network;
    net.pair_count = 1;
    let mut out = [0xEEu8; 20];
    files::write_all(rt, "case 51 written", net, &mut out)
}

fn case_167_written(rt: &impl Print) -> io::Result<()> {
    let loaded = reader::read(
        b"\x01\x02\x01\x02\x01\x01\x01\x01\x01\x01\x00\x00\x00\x02\x07\x06\x01\x00\x05\x06\x00\x00",
    );
    let mut net = loaded.network;
    net.actions[100] = 7;
    net.actions[101] = 2;
    let mut out = [0xEEu8; 23];
    files::write_all(rt, "case 167 written", net, &mut out)
}

fn case_396_written(rt: &impl Print) -> io::Result<()> {
    let loaded = reader::read(
        b"\x01\x03\xD6\x02\x02\xD6\x02\x1F\x39\x02\x39\x07\x72\x01\x72\x13\x03\x01\x00\x01\x02\x02\x00\x01\x01\x01\x02\x01\x01\x01\x01\x04\x04\x02\x04\x00\x07\x00\x00\x00\x80\x80\x80\x01\x00\x02\x03\x00\x04\x03\x03\x00\x02\x02",
    );
    let mut net = loaded.network;
    net.channels[0].writer = 360394;
    let mut out = [0xEEu8; 55];
    files::write_all(rt, "case 396 written", net, &mut out)
}

fn the_graph_of_case_68(rt: &impl Print) -> io::Result<()> {
    graphs::show(
        rt,
        "the graph of case 68",
        b"\x01\x01\x30\x02\x1F\x01\x00\x00\x07\x05\x01\x01\x00\x02\x04\x06\x80\x80\x80\x80\x08\x02\x07\x05\x05\x00\x06\xA3\xBF\x01\x00\x01\x05\x06\x07\x01\x01\x03\x01\x00\x04\x09\x00",
    )
}

fn the_graph_of_case_101(rt: &impl Print) -> io::Result<()> {
    graphs::show(
        rt,
        "the graph of case 101",
        b"\x01\x04\x20\x03\x20\x02\x20\x02\x20\x02\x02\x03\x02\x01\x20\x03\x20\x01\x03\x00\x03\x01\x03\x00\x00\x07\xFF\xFF\xFF\xFF",
    )
}

fn the_graph_of_case_233(rt: &impl Print) -> io::Result<()> {
    graphs::show(
        rt,
        "the graph of case 233",
        b"\x01\x04\xE8\x07\x02\x7D\x01\xFA\x01\x01\x7D\x01\xE8\x07\x02\xE8\x07\x07\xE8\x07\x01\xF7\x02\x01\x04\x00\x02\x00\x03\x03\x01\x02\x01\x00\x01\x02\x02\x00\x03\x01\x01\x05\x00\x02\x00\x00",
    )
}

fn the_graph_of_case_8073(rt: &impl Print) -> io::Result<()> {
    graphs::show(
        rt,
        "the graph of case 8073",
        b"\x01\x05\xAE\x01\x02\xAE\x01\x01\xDC\x02\x01\xDC\x02\x01\xDC\x02\x01\xDC\x02\x01\xDC\x02\x01\xDC\x02\x01\xAE\x01\x01\xAE\x01\x01\x04\x01\x02\x00\x02\x01\x03\x00\x04\x01\x01\x00\x02\x01\x00\x00\x00\x00\x00",
    )
}

fn case_247_run(rt: &impl Print) -> io::Result<()> {
    let input = [
        1u32, 1, 0, 0, 0, 0, 0, 0, 0, 0, 0, 2147483648, 0, 0, 1, 453412, 1, 19, 0, 18, 0, 0, 0, 0,
    ];
    let mut output = [9u32; 24];
    ran::show(
        rt,
        "case 247 run",
        b"\x01\x02\x02\x02\x01\x01\x01\x02\x01\x01\x00\x00\x05\x06\x05\x00\x00\x05\x05\x04\x00\x06\x05\x00\x00\x01\x01\x07\x06\x05\x06\x07\x00\x00",
        2,
        &input,
        &mut output,
    )
}

fn case_370_run(rt: &impl Print) -> io::Result<()> {
    let input = [0u32, 0, 0, 0, 0, 0, 0, 0, 0, 0, 0, 0];
    let mut output = [9u32; 17];
    ran::show(
        rt,
        "case 370 run",
        b"\x01\x03\x01\x02\x01\x01\x01\x01\x01\x01\x01\x01\x01\x01\x00\x00\x00\x00\x00",
        2,
        &input,
        &mut output,
    )
}

fn case_27350_run(rt: &impl Print) -> io::Result<()> {
    let input = [1u32, 497588304, 0, 0, 0, 0, 0, 0, 0, 0, 0, 0, 0, 0, 0, 0];
    let mut output = [9u32; 16];
    ran::show(
        rt,
        "case 27350 run",
        b"\x01\x03\x02\x02\x02\x01\x02\x04\x01\x01\x01\x01\x01\x01\x03\x02\x00\x02\x01\x00\x01\x04\x00\x02\x00\x08\x00\x02\x01\x06\x00\x02\x01\x01\x00\x02\x00\x01\x08\x03\x00\x07\x00\x00\x02\xB0\x81\xF9\x58\x00\x01\x03\x03\x05\x05\x07\x02\x00\x05\x07\x01\x00\x03\x00\x02\x00\x03\x00\x01\x06\x03\x03\x07\x07\x05\x03\x02\x05\x03\x01\x02\x04\x00\x03\x02\x04\x07\x01\x04\x02\x07\x00\x00\x0A\x00\x05\x04\x03\x05\x00\x06\x07\x00\x00\x04\x03\x04\x00\x05\x04\x00\x00\x05\x07\x04\x00",
        1,
        &input,
        &mut output,
    )
}

fn case_31602_run(rt: &impl Print) -> io::Result<()> {
    let input = [1u32, 2, 1, 476739905, 1, 16384, 1, 67, 1, 20];
    let mut output = [9u32; 10];
    ran::show(
        rt,
        "case 31602 run",
        b"\x01\x03\xC7\x07\x01\xC7\x07\x63\xC7\x07\x02\xC7\x07\x39\xC7\x07\x02\xC7\x07\x84\x01\x01\x01\x02\x02\x00\x02\x01\x01\x00\x02\x01\x05\x03\x05\x06\x07\x00\x07\x02\x01\x00\x05\x00\x00\x00\x04\x00\x03\x80\x80\x80\x80\x08\x00\x06\x01\x00\x00\x03\x00\x02\x01\x01\x04\x05\x02\x07\x06\x05\x00\x00\x04\x01\x06\x00\x05\x05\x04\x00\x00\x05\x0A\x00\x04\x00\x03\x00\x00\x00\x03\x00\x04\x00\x04\x00",
        1,
        &input,
        &mut output,
    )
}

fn case_84_planned(rt: &impl Print) -> io::Result<()> {
    let mut out = [9u32; 4];
    plans::show_plan(
        rt,
        "case 84 planned",
        b"\x01\x01\x03\x02\x01\x01\x00\x00\x03\x06\x07\x00\x00\x07\x04\x01\x00\x05\x07\x03\x00",
        1,
        &mut out,
    )
}

fn case_103_planned(rt: &impl Print) -> io::Result<()> {
    let mut out = [9u32; 1];
    plans::show_plan(
        rt,
        "case 103 planned",
        b"\x01\x01\x01\x01\x01\x01\x00\x00\x03\x05\x05\x04\x00\x01\x00\x03\x01\x01\x04\x01\x07",
        1,
        &mut out,
    )
}

fn case_131_planned(rt: &impl Print) -> io::Result<()> {
    let mut out = [9u32; 8];
    plans::show_plan(
        rt,
        "case 131 planned",
        b"\x01\x03\xCC\x04\x01\xCC\x04\x01\xCC\x04\x02\xCC\x04\x01\xCC\x04\x01\xCC\x04\x01\x00\x00\x01\x05\x04\x07\x00\x00\x00",
        3,
        &mut out,
    )
}

fn case_233_planned(rt: &impl Print) -> io::Result<()> {
    let mut out = [9u32; 19];
    plans::show_plan(
        rt,
        "case 233 planned",
        b"\x01\x04\xE8\x07\x02\x7D\x01\xFA\x01\x01\x7D\x01\xE8\x07\x02\xE8\x07\x07\xE8\x07\x01\xF7\x02\x01\x04\x00\x02\x00\x03\x03\x01\x02\x01\x00\x01\x02\x02\x00\x03\x01\x01\x05\x00\x02\x00\x00",
        4,
        &mut out,
    )
}

fn the_plan_of_case_16(rt: &impl Print) -> io::Result<()> {
    let plan = [0u32, 463, 0, 231, 0, 0, 0, 2252491624];
    plans::show_check(
        rt,
        "the plan of case 16",
        b"\x01\x03\xD0\x03\x01\xD0\x03\x01\xE8\x01\x01\xE8\x01\x01\xD0\x03\x01\xD0\x03\x01\x00\x00\x00\x00\x00",
        1,
        &plan,
    )
}

fn the_plan_of_case_43(rt: &impl Print) -> io::Result<()> {
    let plan = [0u32, 0, 0, 69, 0, 138, 0, 207];
    plans::show_check(
        rt,
        "the plan of case 43",
        b"\x01\x01\xA6\x04\x04\xA6\x04\x45\x00\x00\x08\x01\x00\x05\x00\x00\x00\x80\x80\x01\x00\x01\x07\x04\x06\x00\x05\xF3\x8C\xF5\x02\x00\x06\x04\x00\x00\x00\x06\xA7\xFB\xF3\xE2\x0E\x00\x07\x00\x01\x00\x05\x03\x04\x00",
        2,
        &plan,
    )
}

fn the_plan_of_case_93(rt: &impl Print) -> io::Result<()> {
    let plan = [3u32, 6, 0, 119, 0, 184, 1, 0];
    plans::show_check(
        rt,
        "the plan of case 93",
        b"\x01\x01\xD2\x02\x04\xD2\x02\x06\x00\x00\x02\x06\x04\x00\x00\x05\x01\x00\x00",
        2,
        &plan,
    )
}

fn the_plan_of_case_94(rt: &impl Print) -> io::Result<()> {
    let plan = [3u32, 1, 3, 0, 2587657803];
    plans::show_check(
        rt,
        "the plan of case 94",
        b"\x01\x01\x67\x02\x67\x01\x00\x00\x01\x02\x07\x05\x02",
        4,
        &plan,
    )
}

fn the_plan_of_case_279(rt: &impl Print) -> io::Result<()> {
    let plan = [
        0u32, 0, 2, 0, 3, 0, 2, 26, 1, 0, 0, 247, 1, 247, 0, 494, 1, 494, 1, 740, 1, 741,
    ];
    plans::show_check(
        rt,
        "the plan of case 279",
        b"\x01\x04\xF7\x01\x01\x0D\x01\xDC\x07\x01\xC5\x02\x19\xDC\x07\x02\x99\x06\x1A\xF7\x01\x01\x0D\x01\x00\x00\x03\x06\x02\x00\x00\x06\x06\x00\x00\x01\x02\x04\x07\x01\x00\x00\x04\x00\x01\x06\x02\x00\x00\x02\x06\x01\x00\x00\x06\x07\x00\x00",
        4,
        &plan,
    )
}

fn the_plan_of_case_313(rt: &impl Print) -> io::Result<()> {
    let plan = [
        2u32, 0, 1, 4, 0, 0, 1, 4, 0, 0, 0, 2, 0, 18, 0, 19, 0, 36, 0, 37, 0, 54, 0, 55,
    ];
    plans::show_check(
        rt,
        "the plan of case 313",
        b"\x01\x03\x48\x02\x48\x04\x12\x02\x12\x01\x48\x02\x24\x02\x00\x00\x01\x01\x07\x05\x01\x04\x06\x04\x00\x00\x07\x02\x01\x00\x06\x03\x00\x00\x01\x07\x06\x05\x05\x07\x00\x03\x00\x02\x00\x04\x03\x01\x07\x00\x05\x01\x00\x07\x07\x01\x06\x07\x02",
        3,
        &plan,
    )
}

fn case_381_by_turns(rt: &impl Print) -> io::Result<()> {
    let plan = [0u32, 0, 2147483648];
    let input = [1u32, 8, 0, 0, 0, 0];
    let list = [65536u32, 0, 0, 0, 0, 0, 0, 0, 0, 0, 0, 0, 0];
    let mut output = [9u32; 6];
    turn_runs::show(
        rt,
        "case 381 by turns",
        b"\x01\x01\x01\x01\x01\x01\x00\x00\x04\x06\x05\x00\x00\x07\x06\x02\x00\x00\x01\xB3\xB9\x01\x00\x05\x04\x04\x00",
        1,
        3,
        &plan,
        &input,
        &list,
        &mut output,
    )
}

fn case_481_by_turns(rt: &impl Print) -> io::Result<()> {
    let plan = [2u32, 0, 1, 0, 1, 1];
    let input = [0u32, 0, 0, 0, 0, 0];
    let list = [0u32; 0];
    let mut output = [9u32; 6];
    turn_runs::show(
        rt,
        "case 481 by turns",
        b"\x01\x02\x02\x01\x02\x01\x01\x01\x01\x01\x01\x00\x01\x01\x00\x00\x01\x01\x09\x01\x01\x05\x04\x01\x01\x03\x04\x01\x04\x03\x00\x01\x04\x07\x01\x07\x01\x04\x00\x04\x00\x04\x00\x06\x01\x00\x00\x02\x06\x07\x05\x04\x00\x03\x00\x08\x00\x02\x05\x00\x01\x01\x03\x06\x00\x00\xC8\x05\x00\x05\x06\x07\x00\x01\x04\x05\x01\x00\x00\x0A\x00\x00\x00\x0A\x00\x03\x00\x01\x02",
        3,
        1,
        &plan,
        &input,
        &list,
        &mut output,
    )
}

fn case_17929_by_turns(rt: &impl Print) -> io::Result<()> {
    let plan = [0u32, 0, 0, 1];
    let input = [
        1u32, 20476302, 1, 1, 1, 2349825237, 1, 18, 1, 1497510246, 0, 0,
    ];
    let list = [
        0u32, 0, 0, 0, 0, 0, 0, 0, 0, 0, 0, 0, 0, 0, 0, 0, 0, 0, 0, 0, 0, 0, 1, 1,
    ];
    let mut output = [9u32; 12];
    turn_runs::show(
        rt,
        "case 17929 by turns",
        b"\x01\x02\x02\x01\x02\x01\x02\x01\x02\x01\x01\x00\x01\x03\x00\x01\x00\x02\x01\x00\x01\x01\x01\x00\x01\x01\x01\x03\x00\x02\x05\x04\x00\x07\x00\x00\x04\x00\x05\x00\x04\x00\x05\x00\x03\x02\x04\x03",
        2,
        3,
        &plan,
        &input,
        &list,
        &mut output,
    )
}

fn case_20910_by_turns(rt: &impl Print) -> io::Result<()> {
    let plan = [1u32, 0, 1, 1, 1, 2, 0, 0, 1, 3];
    let input = [0u32, 0, 0, 0, 0, 0, 0, 0, 0, 0, 54570];
    let list = [
        0u32, 1, 0, 1, 1, 1, 1, 1, 1, 0, 1, 1, 1, 1, 1, 1, 1, 1, 1, 1, 1, 1, 1, 1, 0, 1, 0, 0,
    ];
    let mut output = [9u32; 10];
    turn_runs::show(
        rt,
        "case 20910 by turns",
        b"\x01\x03\x87\x04\x03\x87\x04\x01\x87\x04\x01\x87\x04\x01\x87\x04\x01\x87\x04\x01\x02\x02\x01\x00\x01\x04\x00\x00\x01\x01\x00\x00\x01\x02\x00\x00\x01\x01\x00\x00\x01\x08\x03\x04\x02\x04\x00\x04\x00\x01\x00\x04\x02\x05\x00\x08\x03\x03\x01\x04\x03\x03\x04\x02\x06\x00\x00\x00\x03\x02\x06\x02\x00\x07\xA5\xD8\xFA\x9E\x0C\x00\x07\x04\x01\x00\x03\x01\x00\x03\x03\x02\x06\x05\x02\x05\x07\x01\x00\x05\x06\x02\x00",
        2,
        1,
        &plan,
        &input,
        &list,
        &mut output,
    )
}

fn case_458_timed(rt: &impl Print) -> io::Result<()> {
    let plan = [1u32, 0, 0, 0, 0, 1, 10];
    let durations = [1u32, 0, 1];
    let mut out = [9u32; 6];
    times::show(
        rt,
        "case 458 timed",
        b"\x01\x02\xE8\x07\x01\xE8\x07\x01\xE8\x07\x02\xE8\x07\x01\x00\x00\x02\x05\x00\x03\x00\x00\x05\xB5\xB7\xB7\x86\x05\x00\x03\x01\x03\x05\x05\x07\x07\x01\x00\x00\x00\x07\x00",
        4,
        &plan,
        &durations,
        &mut out,
    )
}

fn case_621_timed(rt: &impl Print) -> io::Result<()> {
    let plan = [2u32, 0, 2, 379, 1, 0];
    let durations = [2u32, 16383, 0];
    let mut out = [9u32; 6];
    times::show(
        rt,
        "case 621 timed",
        b"\x01\x02\xFC\x02\x02\xFC\x02\x01\xFC\x02\x01\xFC\x02\x01\x00\x00\x00\x00",
        3,
        &plan,
        &durations,
        &mut out,
    )
}

fn case_694_timed(rt: &impl Print) -> io::Result<()> {
    let plan = [1u32, 0, 1, 1, 1, 2, 0, 3, 1, 5, 1, 6, 0, 9, 2, 10, 0, 12];
    let durations = [1u32, 0, 1, 0, 1, 0, 1, 1, 0];
    let mut out = [9u32; 18];
    times::show(
        rt,
        "case 694 timed",
        b"\x01\x03\x0F\x01\x0F\x01\x05\x01\x05\x01\x03\x01\x03\x01\x03\x00\x02\x01\x02\x00\x01\x03\x00\x00\x02\x01\x01\x01\x02\x01\x00\x02\x00\x01\x00\x00\x00",
        3,
        &plan,
        &durations,
        &mut out,
    )
}

fn case_1593_timed(rt: &impl Print) -> io::Result<()> {
    let plan = [
        1u32, 0, 1, 0, 1, 0, 0, 1, 0, 1, 0, 2, 0, 2, 0, 3, 1, 3, 0, 4, 1, 4,
    ];
    let durations = [0u32, 0, 0, 0, 0, 0, 0, 0, 0, 0, 0];
    let mut out = [9u32; 22];
    times::show(
        rt,
        "case 1593 timed",
        b"\x01\x02\x01\x02\x01\x01\x05\x01\x01\x01\x01\x01\x00\x02\x00\x01\x00\x02\x01\x01\x00\x01\x01\x03\x01\x06\x06\x00",
        2,
        &plan,
        &durations,
        &mut out,
    )
}

fn case_16_listed(rt: &impl Print) -> io::Result<()> {
    let mut out = [46u8; 92];
    listings::show(
        rt,
        "case 16 listed",
        b"\x01\x03\xD0\x03\x01\xD0\x03\x01\xE8\x01\x01\xE8\x01\x01\xD0\x03\x01\xD0\x03\x01\x00\x00\x00\x00\x00",
        &mut out,
    )
}

fn case_42_listed(rt: &impl Print) -> io::Result<()> {
    let mut out = [46u8; 58];
    listings::show(
        rt,
        "case 42 listed",
        b"\x01\x02\xFB\x02\x01\xFB\x02\x01\xFB\x02\x01\xFB\x02\x01\x00\x00\x03\x05\x03\x00\x00\x06\x00\x00\x00\x01\x02\x04\x06\x04\x05\x04\x05\x00\x07\x07\x02\x00\x06\x00\x00\x00\x05\x06\x04\x00",
        &mut out,
    )
}

fn case_133_listed(rt: &impl Print) -> io::Result<()> {
    let mut out = [46u8; 150];
    listings::show(
        rt,
        "case 133 listed",
        b"\x01\x02\x08\x01\x08\x01\x01\x01\x01\x01\x00\x00\x03\x06\x01\x00\x00\x07\x02\x01\x00\x06\x05\x00\x00\x01\x05\x05\x04\x00",
        &mut out,
    )
}

fn case_142_listed(rt: &impl Print) -> io::Result<()> {
    let mut out = [46u8; 0];
    listings::show(
        rt,
        "case 142 listed",
        b"\x01\x03\x01\x01\x01\x01\x1F\x01\x1F\x01\x01\x01\x01\x01\x00\x00\x02\x06\x01\x00\x00\x01\x06\x05\x00\x02\x00\x05\x04\x00\x01\x00\x04\x07\x00",
        &mut out,
    )
}
