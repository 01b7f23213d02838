//! What the readers accept and refuse: a few telling files of each kind.

use crate::cases::{BILL, PLAN, check_files, check_months};
use std::test::Fail;

#[test]
fn a_record_is_read_or_refused_in_one_line(rt: HostRuntime) -> Result<(), Fail> {
    check_files(
        rt.alloc(),
        BILL,
        "tariff",
        "label,energyratestructure/period0/tier0rate",
        "\nL,-0.10\n>0 bill -67.20|\n L\t,\t1e-1 \n>0 bill 67.20|\nM,x\nL,0.10\nN,\n>0 bill 67.20\
        |\nM\nL,0.10\n>2 refused record 0 Shape 0|\nM,0.10\n>2 refused record 1 NoLabel none 0\
        |\nL,0.1000000000000000001\n>2 refused record 4 Decimal energyratestructure/period0/tier0rate 3 0.1000000000000000001\
        |\nL,\n>2 refused record 6 EnergyMissing none 0|,fixedchargefirstmeter\nL,0.10,5\n>0 bill 72.20\
        |,energyratestructure/period0/tier0sell\nL,0.10,0.05\n>0 bill 67.20\
        |,demandrateunit\nL,0.10,\u{e9}23456789012345678901234567890123456789012345678901234567890X\
        \n>2 refused record 12 DemandUnit demandrateunit 0 ??2345678901234567890123456789012345678901234567890123456789",
    )
}

#[test]
fn readings_are_read_or_refused(rt: HostRuntime) -> Result<(), Fail> {
    check_months(
        rt.alloc(),
        BILL,
        "readings",
        "start,net_wh",
        "1000",
        "0 START, Net_Wh>0 bill 67.20|1 2025-02-01 00:00:00,1000000000>0 bill 100067.10|6 2025-02-01T05:00,-5>0 bill 67.10\
        |672  2025-02-28 23:00\t, 1e3 >0 bill 67.20|6 2025-02-01T05:00,1000000001>3 refused readings 7 TooLarge 5\
        |6 2025-02-01T05:00,5.5>3 refused readings 6 Number 5|6 2025-02-01T06:00,5>3 refused readings 3 Order 5\
        |672 >3 refused readings 5 Count 671 672|1 2025-02-29T00:00,5>3 refused readings 2 Start 0|0 start,net_wh,>3 refused readings 1 Shape",
    )
}

#[test]
fn a_battery_is_read_or_refused(rt: HostRuntime) -> Result<(), Fail> {
    check_files(
        rt.alloc(),
        PLAN,
        "battery",
        "kind,name,change,grid_wh,low,high\n",
        "mode,idle,0,0,,\nset,capacity,255,,,>0 2025-02-28T23:00 idle 0 1000\
        |set,capacity,4,,,\nset,floor,2,,,\nset,end,1,,,\nmode,rest,0,0,,\n>0 2025-02-28T23:00 rest 2 1000\
        |set,capacity,4,,,\nset,floor,1,,,\nset,start,2,,,\nset,end,3,,,\nmode,a-_Z9,-255,-1000000000,0,255\n>5 no schedule\
        |set,capacity,256,,,\nmode,idle,0,0,,\n>4 refused battery 6 Range 0|set,capacity,4,,,\n>4 refused battery 7 NoModes\
        |set,capacity,4,,,\nset,capacity,4,,,\nmode,idle,0,0,,\n>4 refused battery 4 Twice 1\
        |set,capacity,4,,,\nmode,idle,0,0,,\nmode,idle,1,0,,\n>4 refused battery 4 Twice 2\
        |set,capacity,4,,,\nmode,idle,0,0,3,2\n>4 refused battery 6 Range 1|set,capacity,4,,\nmode,idle,0,0,,\n>4 refused battery 1 Shape\
        |set,size,4,,,\n>4 refused battery 2 Unknown 0|mode,idle,0,0,,\n>4 refused battery 3 Missing capacity\
        |set,capacity,4.5,,,\n>4 refused battery 5 Number 0",
    )
}

#[test]
fn a_schedule_is_billed_or_what_is_wrong_is_told(rt: HostRuntime) -> Result<(), Fail> {
    check_months(
        rt.alloc(),
        "bill --records tariff --label L --readings readings --battery battery --schedule schedule",
        "schedule",
        "start,mode",
        "idle",
        "6 2025-02-01 05:00:00,charge>0 bill 67.30|1 2025-02-01T00:00,discharge>5 not feasible at interval 0\
        |1 2025-02-01T00:00,idle,idle>4 refused schedule 1 Shape|672 >4 refused schedule 2 Count 671 672\
        |672 2025-02-28T22:00,idle>4 refused schedule 3 Start 671|672 2025-02-28T23:00,rest>4 refused schedule 4 Mode 671",
    )
}
